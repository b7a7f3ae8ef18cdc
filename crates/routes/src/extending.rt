// The lines of a search: that of the empty partial route, and how a partial route becomes one arc longer.
ghost use Rattle.std.specs.Prelude.{◌≡◌, true, false, cond, None, Some, []};
ghost use Rattle.network.specs.Copies.{copy_meaning};
ghost use Rattle.network.specs.Lists.{among};
ghost use Rattle.length.specs.Walks.{sites_along};
ghost use Rattle.routes.specs.Lines.{Asked, OnLine, RestsHold, following_arc, line_of, line_within, next_line, stretched, there, is_writable};
ghost use Rattle.routes.specs.Routes.{is_complete};

use super::enquiry::Enquiry;
use super::filling::LentTables;
use super::line::Line;
use super::totals::{Totals, rest_at};
use length::Kind;
use network::{Arc, ArcNumbers, Network, NetworkCopy};

// What routes are searched by: the network, what is asked, and the least totals from each site to the destination.
#[derive(Drop)]
pub(super) struct Search<'a, 'b, K: Kind> {
    pub(super) network: &'a NetworkCopy,
    pub(super) enquiry: &'a Enquiry<K>,
    pub(super) rests: &'a LentTables<'b, K::Length>,
    ghost asked: { Asked (copy_meaning network.now) enquiry.now },
    ghost rests_hold: { RestsHold K.Kind.model (copy_meaning network.now) enquiry.now rests.now },
}

impl<K: Kind> Search<'_, '_, K> {
    // Whether the partial route on a line meets a site.
    fn meets(&self, line: &Line<K::Length>, site: u8) -> bool
        requires { there (copy_meaning self.now.network.now) line.now.arcs ≡ true }
        ensures { result ≡ among site (sites_along (copy_meaning self.now.network.now) self.now.enquiry.now.source line.now.arcs) }
    {
        u32::from(site) == self.enquiry.source
            || line.arcs.as_slice().iter().any(|number| {
                self.network
                    .arc(u32::from(*number))
                    .is_some_and(|arc| arc.to == site)
            })
    }

    // The arc of a number, where it is usable, begins where the partial route on a line ends, and leads to a site that is not
    // met before.
    fn following(&self, line: &Line<K::Length>, number: u8) -> Option<Arc>
        requires { there (copy_meaning self.now.network.now) line.now.arcs ≡ true }
        ensures { result ≡ following_arc (copy_meaning self.now.network.now) self.now.enquiry.now line.now number }
    {
        let arc = self.network.arc(u32::from(number))?;
        if u32::from(arc.capacity) < self.enquiry.width || arc.from != line.end {
            return None;
        }
        (!self.meets(line, arc.to)).then_some(arc)
    }

    // The line of a partial route of this length and these totals, where the destination can be reached from its end within
    // the limits.
    fn line_within(
        &self,
        length: K::Length,
        totals: Totals,
        arcs: ArcNumbers,
        end: u8,
    ) -> Option<Line<K::Length>>
        ensures { result ≡ line_within (K.Kind.model self.now.enquiry.now.kind) self.now.enquiry.now.limits self.now.rests.now length totals arcs end }
    {
        let rests = self.rests;
        let rest = rest_at(&*rests.length, end)?;
        totals
            .within(arcs.len(), self.enquiry.limits, rests, end)
            .then(|| Line {
                length,
                projected: self.enquiry.kind.join(length, rest),
                totals,
                arcs,
                end,
                taken: false,
            })
    }

    // The line of the empty partial route, where that is written down.
    pub(super) fn start(&self) -> Option<Line<K::Length>>
        ensures { result ≡ cond (is_writable K.Kind.model (copy_meaning self.now.network.now) self.now.enquiry.now []) (Some (line_of K.Kind.model (copy_meaning self.now.network.now) self.now.enquiry.now false [])) None }
    {
        self.line_within(
            self.enquiry.kind.empty_length(),
            Totals::default(),
            ArcNumbers::new(),
            self.enquiry.source as u8,
        )
    }

    // A line made longer by an arc, where the limits and the least that is to come allow it.
    fn stretched(&self, arc: Arc, number: u8, line: &Line<K::Length>) -> Option<Line<K::Length>>
        ensures { result ≡ stretched (K.Kind.model self.now.enquiry.now.kind) self.now.enquiry.now.limits self.now.rests.now arc number line.now }
    {
        // the limits first: many arcs may lead nowhere within them, and what follows is work for a line that is written
        let rests = self.rests;
        let rest = rest_at(&*rests.length, arc.to)?;
        let totals = line.totals.with(arc);
        let hops = line.arcs.len().saturating_add(1);
        if !totals.within(hops, self.enquiry.limits, rests, arc.to) {
            return None;
        }
        let kind = &self.enquiry.kind;
        let length = kind.join(line.length, kind.arc_length(arc));
        Some(Line {
            length,
            projected: kind.join(length, rest),
            totals,
            arcs: line.arcs.with(number)?,
            end: arc.to,
            taken: false,
        })
    }

    // The line of the partial route on a line made longer by the arc of a number, where that is written down.
    pub(super) fn extended(&self, line: &Line<K::Length>, number: u8) -> Option<Line<K::Length>>
        requires line { OnLine K.Kind.model (copy_meaning self.now.network.now) self.now.enquiry.now line.now }
        requires open { is_complete (copy_meaning self.now.network.now) self.now.enquiry.now line.now.arcs ≡ false }
        ensures { result ≡ next_line K.Kind.model (copy_meaning self.now.network.now) self.now.enquiry.now line.now.arcs number }
    {
        self.stretched(self.following(line, number)?, number, line)
    }
}
