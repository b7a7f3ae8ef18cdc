// Arcs, and the trait of everything that is a network.
ghost use Rattle.std.specs.Prelude.{◌≡◌};
ghost use Rattle.network.specs.Net.{Net, WellFormed, arc_count, arc_of};

// One arc: a one-way link from a site to another, with its five figures.
#[derive(Clone, Copy, Default, PartialEq, Eq, Debug)]
pub struct Arc {
    pub from: u8,
    pub to: u8,
    pub weight: u16,
    pub delay: u16,
    pub jitter: u16,
    pub charge: u16,
    pub capacity: u8,
}

// A network is known by what it answers to three questions. It has a meaning, the number of its sites and the list of
// its arcs, which keeps the limits; a question changes nothing, and its answer is read off the meaning every time.
pub trait Network {
    ghost meaning: { Self → Net };

    // How many sites there are: 2 to 64, numbered from 0.
    fn sites(&self) -> u8
        ensures { result ≡ (meaning self.now).sites };

    // How many arcs there are: at most 256, numbered from 0.
    fn arcs(&self) -> u16
        ensures { result ≡ arc_count (meaning self.now) };

    // The arc of a number, or none for a number at or above the number of arcs.
    fn arc(&self, number: u32) -> Option<Arc>
        ensures { result ≡ arc_of (meaning self.now) number };

    ghost formed: { (self : Self) → WellFormed (meaning self) };
}
