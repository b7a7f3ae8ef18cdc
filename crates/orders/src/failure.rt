// Why the carrying out of orders ends before the last of them.
use std::alloc::AllocError;
use std::{fmt, io};
use thiserror::Error;

#[derive(Drop, Error)]
pub enum OrdersFailure {
    // what is said cannot be written
    #[error(transparent)]
    Outside(#[from] io::Error),
    // the orders ask for more calls than one run makes
    #[error("the orders ask for more than 4294967295 calls; the others were not carried out")]
    TooManyCalls,
    // no memory was left
    #[error("out of memory")]
    NoMemory(#[from(alloc)] AllocError),
}

// Not derived: of what failed it has the reason in words, as a `main` that answers this failure prints it.
impl fmt::Debug for OrdersFailure {
    fn fmt<W: fmt::Write>(&self, f: &mut fmt::Formatter<W>) -> fmt::Result {
        match self {
            OrdersFailure::Outside(error) => write!(f, "Outside({error})"),
            OrdersFailure::TooManyCalls => write!(f, "TooManyCalls"),
            OrdersFailure::NoMemory(_) => write!(f, "NoMemory"),
        }
    }
}
