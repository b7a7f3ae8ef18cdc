// A network as it is given in a table: a number of sites and a list of arcs.
ghost use Rattle.std.specs.Prelude.{◌≡◌, ◌≤◌, true, vec_len};
ghost use Rattle.network.specs.Lists.{all_of};
ghost use Rattle.network.specs.Limits.{arc_fits};

use network::Arc;

// The sites and arcs that a table gives; they keep the limits of a network.
#[derive(Drop)]
pub struct Table {
    pub(super) sites: u8,
    pub(super) arcs: Vec<Arc>,
    ghost some_sites: { 2 ≤ sites },
    ghost few_sites: { sites ≤ 64 },
    ghost few_arcs: { vec_len arcs ≤ 256 },
    ghost arcs_fit: { all_of (arc_fits sites) arcs.items ≡ true },
}
