// The ring plan as a value. Its questions are in the module `ring`.
ghost use Rattle.std.specs.Prelude.{◌≤◌};
ghost use Rattle.network.specs.Ring.{FiguresFit};

use super::figures::Figures;

// A ring of 3 to 64 sites with the same figures on every arc.
#[derive(Clone, Copy)]
pub struct RingPlan {
    pub(super) sites: u8,
    pub(super) figures: Figures,
    ghost some_sites: { 3 ≤ sites },
    ghost few_sites: { sites ≤ 64 },
    ghost figures_fit: { FiguresFit figures },
}
