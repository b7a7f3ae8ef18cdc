// The totals of a partial route that have limits, but for its hops: those are its arcs, which a line counts already.
ghost use Rattle.std.specs.Prelude.{◌≡◌, None, slice_index_or};
ghost use Rattle.std.specs.Option.{option_map};
ghost use Rattle.length.specs.Standard.{capped_sum};
ghost use Rattle.routes.specs.Lines.{totals_with, totals_within};
ghost use Rattle.routes.specs.Partial.{at_most};

use super::enquiry::Limits;
use super::filling::LentTables;
use network::Arc;

// The totals of a row of arcs; by default those of no arcs.
#[derive(Clone, Copy, Default)]
pub(super) struct Totals {
    pub(super) delay: u32,
    pub(super) jitter: u32,
    pub(super) charge: u32,
}

// What a table says of a site.
pub(super) fn rest_at<L: Copy>(table: &[Option<L>], site: u8) -> Option<L>
    ensures { result ≡ slice_index_or table.now site None }
{
    *table.get(usize::from(site))?
}

// Whether a total, with the least that is to come, is within a limit.
fn within(total: u32, rest: Option<u32>, limit: u32) -> bool
    ensures { result ≡ at_most (option_map (capped_sum total) rest) limit }
{
    rest.is_some_and(|rest| total.saturating_add(rest) <= limit)
}

impl Totals {
    // The totals with one arc more.
    pub(super) fn with(self, arc: Arc) -> Totals
        ensures { result ≡ totals_with self arc }
    {
        Totals {
            delay: self.delay.saturating_add(u32::from(arc.delay)),
            jitter: self.jitter.saturating_add(u32::from(arc.jitter)),
            charge: self.charge.saturating_add(u32::from(arc.charge)),
        }
    }

    // Whether each total, and so many hops, with the least that is to come from a site, is within its limit.
    pub(super) fn within<L>(
        self,
        hops: u8,
        limits: Limits,
        rests: &LentTables<'_, L>,
        site: u8,
    ) -> bool
        ensures { result ≡ totals_within self hops limits rests.now site }
    {
        within(self.delay, rest_at(&*rests.delay, site), limits.delay)
            && within(self.jitter, rest_at(&*rests.jitter, site), limits.jitter)
            && within(self.charge, rest_at(&*rests.charge, site), limits.charge)
            && within(u32::from(hops), rest_at(&*rests.hops, site), limits.hops)
    }
}
