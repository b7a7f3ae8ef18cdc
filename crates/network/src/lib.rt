// Networks: what an arc is, what every network answers when it is asked, and two networks that are computed:
// ring plans and headroom.
#![tactic(auto)]

pub mod arc;
pub mod copy;
pub mod copying;
pub mod figures;
pub mod headroom;
pub mod listing;
pub mod numbers;
pub mod plan;
pub mod refusal;
pub mod ring;

pub use arc::{Arc, Network};
pub use copy::NetworkCopy;
pub use figures::{Figures, RingRefusal};
pub use headroom::Headroom;
pub use listing::list_arcs;
pub use numbers::ArcNumbers;
pub use plan::RingPlan;
pub use refusal::Refusal;
