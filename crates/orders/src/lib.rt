// Orders: a text of calls on a ledger, carried out one after another, and what is said of each.
#![tactic(auto)]

mod book;
mod clerk;
pub mod ending;
pub mod failure;
pub mod order;
mod output;
mod pocket;
mod reading;
pub mod text;

pub use clerk::carry_out;
pub use failure::OrdersFailure;
pub use order::NumberedOrder;
pub use reading::{read_line, read_orders};
