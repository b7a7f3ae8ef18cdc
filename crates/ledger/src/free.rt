// The ledger as a network: the network below with free capacities, each answered in constant time.
ghost use Rattle.ledger.specs.Ledgers.{ledger_meaning, ledger_tally};
ghost use Rattle.network.specs.Net.{arc_at};
ghost use Rattle.ledger.specs.Tally.{free_on, taken_on};
ghost use Rattle.ledger.specs.Shown.{free_less, shown_formed};

use super::ledger::Ledger;
use network::{Arc, Network};

impl<N: Network> Network for Ledger<N> {
    ghost meaning = { ledger_meaning N.Network.meaning };

    ghost formed = { λ self.
        let net = N.Network.meaning self.network in
        let t = ledger_tally self in
        shown_formed net (free_on net t) (N.Network.formed self.network) (λ i. free_less (t.marked i) (arc_at net i).capacity (taken_on t i)) };

    fn sites(&self) -> u8 {
        self.network.sites()
    }

    fn arcs(&self) -> u16 {
        self.network.arcs()
    }

    fn arc(&self, number: u32) -> Option<Arc> {
        let arc = self.network.arc(number)?;
        Some(Arc {
            capacity: self.arcs[number as usize].free_of(arc.capacity),
            ..arc
        })
    }
}
