// The circuit ledger: which capacity is held or booked, and which arcs are closed.
#![tactic(auto)]

mod arcs;
mod caller;
pub mod calls;
pub mod free;
pub mod hold;
pub mod ledger;
pub mod refusals;
mod route;
pub mod row;
pub mod slip;

pub use ledger::Ledger;
pub use refusals::{CloseRefusal, EndRefusal, HoldRefusal, ReopenRefusal};
pub use slip::{Slip, SlipRefusal};
