// Kinds of length, the length of a row of arcs, and least totals over all walks.
#![tactic(auto)]

pub mod kind;
pub mod refusals;
pub mod rows;
pub mod standard;
pub mod totals;

pub use kind::Kind;
pub use refusals::{LeastTotalsRefusal, RowRefusal};
pub use rows::row_length;
pub use standard::StandardKind;
pub use totals::least_totals;
