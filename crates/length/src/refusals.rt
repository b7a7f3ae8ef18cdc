// Why a row of arcs has no length, and why least totals are not worked out. Each refusal has the number of the check that
// failed.
ghost use Rattle.length.specs.Walks.{row_told};
ghost use Rattle.length.specs.Least.{least_totals_told};

use network::Refusal;
use thiserror::Error;

// Why a row of arcs has no length.
#[derive(Clone, Copy, PartialEq, Eq, Debug, Error)]
pub enum RowRefusal {
    #[error("a row has 1 to 15 arcs")]
    ArcsOutside = 31,
    #[error("there is no arc of a number in the row")]
    NoSuchArc = 32,
}

impl Refusal for RowRefusal {
    ghost told = { row_told };

    fn number(&self) -> u32 {
        *self as u32 // 31 or 32
    }
}

// Why least totals are not worked out.
#[derive(Clone, Copy, PartialEq, Eq, Debug, Error)]
pub enum LeastTotalsRefusal {
    #[error("the destination is no site of the network")]
    NoSuchSite = 20,
    #[error("the width is 0")]
    WidthZero = 22,
    #[error("the table has fewer places than the network has sites")]
    TableTooShort = 26,
}

impl Refusal for LeastTotalsRefusal {
    ghost told = { least_totals_told };

    fn number(&self) -> u32 {
        *self as u32 // 20, 22 or 26
    }
}
