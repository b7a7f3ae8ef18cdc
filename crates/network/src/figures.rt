// What a caller brings to make a ring plan, and why a plan is refused.
ghost use Rattle.network.specs.Ring.{ring_told};

use super::refusal::Refusal;
use thiserror::Error;

// The five figures that every arc of a ring plan has, as a caller brings them.
#[derive(Clone, Copy, Default, PartialEq, Eq, Debug)]
pub struct Figures {
    pub weight: u32,
    pub delay: u32,
    pub jitter: u32,
    pub charge: u32,
    pub capacity: u32,
}

// Why a ring plan is refused. Each refusal has the number of the check that failed.
#[derive(Clone, Copy, PartialEq, Eq, Debug, Error)]
pub enum RingRefusal {
    #[error("a ring plan has 3 to 64 sites")]
    SitesOutside = 8,
    #[error("a figure is over its limit (weight and delay 4095, jitter and charge 1023, capacity 255)")]
    FigureOverLimit = 9,
}

impl Refusal for RingRefusal {
    ghost told = { ring_told };

    fn number(&self) -> u32 {
        *self as u32
    }
}
