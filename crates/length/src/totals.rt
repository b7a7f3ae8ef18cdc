// Least totals over all walks to a destination, in any kind of length.
ghost use Rattle.std.specs.Prelude.{◌≡◌, ◌<◌, ◌≤◌, true, false, length, is_ok, None};
ghost use Rattle.std.specs.List.{All};
ghost use Rattle.network.specs.Checks.{outcome};
ghost use Rattle.length.specs.Least.{HoldsLeast, least_totals_answer, least_totals_table, least_totals_told};
ghost use Rattle.length.specs.Rounds.{EndsWithin, all_tried, first_table, rounds, shortens, tried};

use super::kind::Kind;
use super::refusals::LeastTotalsRefusal;
use network::{Arc, Network, list_arcs};

// What rounds of tries go by: the kind of length, the width that an arc must have room for, how many sites there are, and
// the arcs, which begin and end at these sites.
#[derive(Drop)]
struct Rounds<'a, K> {
    kind: &'a K,
    width: u32,
    sites: usize,
    arcs: &'a [Arc],
    ghost ends_within: { All (EndsWithin sites) arcs.now },
}

impl<K: Kind> Rounds<'_, K> {
    // Whether a length is shorter than what stands in a table.
    fn is_shorter(&self, length: K::Length, here: Option<K::Length>) -> bool
        ensures { result ≡ shortens (K.Kind.model self.now.kind.now) here length }
    {
        here.is_none_or(|old| !self.kind.no_longer(old, length))
    }

    // Tries one arc: enters the way over it at its beginning, where the arc has room and that is shorter. Whether it was
    // entered.
    #[tactic(auto, using(crate::proofs::Tries::tried_none, crate::proofs::Tries::tried_longer))]
    fn try_arc(&self, arc: Arc, table: &mut [Option<K::Length>]) -> bool
        requires { EndsWithin (length table.old) arc }
        ensures table { table.new ≡ tried (K.Kind.model self.now.kind.now) self.now.width arc table.old }
        ensures same { result ≡ false → table.new ≡ table.old }
    {
        if u32::from(arc.capacity) < self.width {
            return false;
        }
        let Some(rest) = table[usize::from(arc.to)] else {
            return false;
        };
        let length = self.kind.join(self.kind.arc_length(arc), rest);
        let here = table[usize::from(arc.from)];
        let shorter = self.is_shorter(length, here);
        if shorter {
            table[usize::from(arc.from)] = Some(length);
        }
        shorter
    }

    // Tries every arc in turn. Whether the table changed.
    fn try_arcs(&self, table: &mut [Option<K::Length>]) -> bool
        requires { self.now.sites ≤ length table.old }
        ensures table { table.new ≡ all_tried (K.Kind.model self.now.kind.now) self.now.width self.now.arcs.now table.old }
        ensures same { result ≡ false → table.new ≡ table.old }
    {
        let mut changed = false;
        for arc in self.arcs {
            changed |= self.try_arc(*arc, table);
        }
        changed
    }

    // Fills the first places of a table with the least totals to a destination: first only the destination is reached, and
    // then every arc is tried, round after round, until nothing changes or there were as many rounds as there are sites.
    #[tactic(auto, using(crate::proofs::Rounds::rounds_settled, crate::proofs::Rounds::rounds_next))]
    fn fill_table(&self, destination: usize, table: &mut [Option<K::Length>])
        requires site { destination < self.now.sites }
        requires room { self.now.sites ≤ length table.old }
        ensures { table.new ≡ rounds (K.Kind.model self.now.kind.now) self.now.width self.now.arcs.now self.now.sites (first_table (K.Kind.model self.now.kind.now) self.now.sites destination table.old) }
    {
        table[..self.sites].fill(None);
        table[destination] = Some(self.kind.empty_length());
        for _round in 0..self.sites {
            if !self.try_arcs(table) {
                return;
            }
        }
    }
}

// The least totals to a destination in any kind: for each site the least length of all walks over arcs of at least the width,
// repeated sites allowed, and nothing where there is no way. They go into the first places of a lent table; the others stay.
// Refused with 20 where the destination is no site, 22 where the width is 0 and 26 where the table has fewer places than
// there are sites, and then nothing is changed.
pub fn least_totals<N: Network, K: Kind>(
    network: &N,
    kind: &K,
    destination: u32,
    width: u32,
    table: &mut [Option<K::Length>],
) -> Result<(), LeastTotalsRefusal>
    ensures answer { outcome (λ x. x) least_totals_told result ≡ least_totals_answer (N.Network.meaning network.now) destination width table.old }
    ensures table { table.new ≡ least_totals_table (K.Kind.model kind.now) (N.Network.meaning network.now) destination width table.old }
    ensures least { is_ok result ≡ true → HoldsLeast (K.Kind.model kind.now) (N.Network.meaning network.now) destination width table.new }
{
    let sites = usize::from(network.sites());
    let site = destination as usize;
    if site >= sites {
        return Err(LeastTotalsRefusal::NoSuchSite);
    }
    if width == 0 {
        return Err(LeastTotalsRefusal::WidthZero);
    }
    if table.len() < sites {
        return Err(LeastTotalsRefusal::TableTooShort);
    }
    // A table with its count, since no heap memory is used: it has room for as many arcs as a network may have.
    let mut arcs = [Arc::default(); 256];
    let count = list_arcs(network, &mut arcs);
    let rounds = Rounds {
        kind,
        width,
        sites,
        arcs: &arcs[..count],
    };
    rounds.fill_table(site, table);
    Ok(())
}
