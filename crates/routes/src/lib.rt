// Enquiries: the shortest feasible routes from a source to a destination, and their list.
#![tactic(auto)]

mod checking;
mod choosing;
pub mod enquiring;
pub mod enquiry;
mod extending;
pub mod filling;
pub mod line;
mod listing;
mod noting;
pub mod refusals;
mod taking;
mod totals;

pub use enquiring::enquire;
pub use enquiry::{Enquiry, Found, Limits, RouteRow};
pub use filling::LentTables;
pub use line::Line;
pub use refusals::EnquiryRefusal;
