// Headroom: a network with a reserve taken off every capacity.
ghost use Rattle.std.specs.Prelude.{◌≡◌, ◌-◌};
ghost use Rattle.network.specs.Headroom.{with_headroom, headroom_meaning};
ghost use Rattle.network.specs.Reserves.{headroom_formed};

use super::arc::{Arc, Network};

// The network below, and how much is taken off each capacity.
#[derive(Drop)]
pub struct Headroom<N> {
    network: N,
    reserve: u32,
}

impl<N: Network> Headroom<N> {
    // Lays headroom of `reserve` over a network.
    pub fn new(network: N, reserve: u32) -> Headroom<N>
        ensures { headroom_meaning N.Network.meaning result ≡ with_headroom reserve (N.Network.meaning network) }
    {
        Headroom { network, reserve }
    }
}

// What is left of a capacity, 0 where the reserve is greater.
fn capacity_less(capacity: u8, reserve: u32) -> u8
    ensures { result ≡ capacity - reserve }
{
    u32::from(capacity).saturating_sub(reserve) as u8
}

impl<N: Network> Network for Headroom<N> {
    ghost meaning = { headroom_meaning N.Network.meaning };

    ghost formed = { λ self. headroom_formed self.reserve (N.Network.meaning self.network) (N.Network.formed self.network) };

    fn sites(&self) -> u8 {
        self.network.sites()
    }

    fn arcs(&self) -> u16 {
        self.network.arcs()
    }

    fn arc(&self, number: u32) -> Option<Arc> {
        let arc = self.network.arc(number)?;
        Some(Arc {
            capacity: capacity_less(arc.capacity, self.reserve),
            ..arc
        })
    }
}
