// Network sheets: a network as bits, read from a caller's bytes and written into a caller's buffer.
#![tactic(auto)]

pub mod questions;
pub mod reader;
pub mod reading;
pub mod refusals;
pub mod sheet;
#[cfg(test)]
mod tests;
mod words;
pub mod writing;

pub use refusals::{ReadRefusal, WriteRefusal};
pub use sheet::{Sheet, size_of_sheet};
pub use writing::write_sheet;
