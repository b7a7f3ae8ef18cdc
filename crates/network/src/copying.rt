// Copies of networks: every arc is asked for once, and the copy then answers in the network's place.
ghost use Rattle.std.specs.Prelude.{◌≡◌};
ghost use Rattle.network.specs.Copies.{copy_meaning};
ghost use Rattle.network.specs.Fits.{fits_formed};

use super::arc::{Arc, Network};
use super::copy::NetworkCopy;
use super::listing::list_arcs;

impl NetworkCopy {
    // A copy of a network.
    pub fn of<N: Network>(network: &N) -> NetworkCopy
        ensures { copy_meaning result ≡ N.Network.meaning network.now }
    {
        let mut arcs = [Arc::default(); 256];
        let count = list_arcs(network, &mut arcs);
        NetworkCopy {
            sites: network.sites(),
            count,
            arcs,
        }
    }
}

impl Network for NetworkCopy {
    ghost meaning = { copy_meaning };

    ghost formed = { λ self. fits_formed (copy_meaning self) self.limits };

    fn sites(&self) -> u8 {
        self.sites
    }

    fn arcs(&self) -> u16 {
        self.count as u16
    }

    fn arc(&self, number: u32) -> Option<Arc> {
        self.arcs[..self.count].get(number as usize).copied()
    }
}
