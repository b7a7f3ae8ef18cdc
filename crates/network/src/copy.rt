// The copy of a network as a value. How it is made, and its questions, are in the module `copying`.
ghost use Rattle.std.specs.Prelude.{◌≡◌, ◌≤◌, true, length, take};
ghost use Rattle.network.specs.Limits.{net_fits};

use super::arc::Arc;

// A network's sites and arcs in plain records; the arcs are the first `count` of the table. The count stands beside a table of
// fixed size, since a copy is `Copy` and takes no heap memory.
#[derive(Clone, Copy)]
pub struct NetworkCopy {
    pub(super) sites: u8,
    pub(super) count: usize,
    pub(super) arcs: [Arc; 256],
    ghost few_arcs: { count ≤ 256 },
    ghost counted: { length (take count arcs) ≡ count },
    ghost limits: { net_fits (record { sites = sites; arcs = take count arcs }) ≡ true },
}
