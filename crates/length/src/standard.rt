// The standard kinds of length: five that add up, and width.
ghost use Rattle.length.specs.Standard.{standard};
ghost use Rattle.length.specs.Lawful.{standard_lawful};

use super::kind::Kind;
use network::Arc;

// Weight, delay, jitter, charge and hops (1 for each arc) add from 0, and a sum stops at 4,294,967,295. Width is the least
// capacity on the way, 255 where there are no arcs, and the greater width is the shorter.
#[derive(Clone, Copy, PartialEq, Eq, Debug)]
pub enum StandardKind {
    Weight,
    Delay,
    Jitter,
    Charge,
    Hops,
    Width,
}

impl Kind for StandardKind {
    type Length = u32;

    ghost model = { standard };

    ghost lawful = { standard_lawful };

    fn arc_length(&self, arc: Arc) -> u32 {
        match *self {
            StandardKind::Weight => u32::from(arc.weight),
            StandardKind::Delay => u32::from(arc.delay),
            StandardKind::Jitter => u32::from(arc.jitter),
            StandardKind::Charge => u32::from(arc.charge),
            StandardKind::Hops => 1,
            StandardKind::Width => u32::from(arc.capacity),
        }
    }

    fn empty_length(&self) -> u32 {
        match *self {
            StandardKind::Width => 255,
            _ => 0,
        }
    }

    fn join(&self, a: u32, b: u32) -> u32 {
        match *self {
            StandardKind::Width => a.min(b),
            _ => a.saturating_add(b),
        }
    }

    fn no_longer(&self, a: u32, b: u32) -> bool {
        match *self {
            StandardKind::Width => b <= a,
            _ => a <= b,
        }
    }
}
