// The ledger as a value. Its calls are in the modules `calls`, `hold` and `slip`, its questions in `free`.
ghost use Rattle.std.specs.Prelude.{◌≡◌, true};
ghost use Rattle.network.specs.Lists.{all_of};
ghost use Rattle.ledger.specs.Rows.{OneRowEach, SoldIs, fits};

use super::arcs::ArcUse;
use super::row::Row;

// Lies over a network: which arcs are closed and how much is sold on each, the rows, and how many tickets were given.
#[derive(Drop)]
pub struct Ledger<N> {
    pub(super) network: N,
    pub(super) arcs: [ArcUse; 256],
    pub(super) rows: [Row; 64],
    pub(super) given: u32,
    ghost one_row_each: { OneRowEach rows },
    ghost rows_fit: { all_of (fits given) rows ≡ true },
    ghost sold_is: { SoldIs arcs rows },
}
