// Why the cases are not carried out to the end.
use network::Refusal;
use orders::OrdersFailure;
use sheet::ReadRefusal;
use std::alloc::AllocError;
use std::io;
use thiserror::Error;

#[derive(Debug, Drop, Error)]
pub enum ListingsFailure {
    // the bytes of a network are two digits each, 0 to 9 and a to f
    #[error("a network's bytes are to be hexadecimal digits")]
    NotHex,
    #[error("an order stands before the first network")]
    NoNetwork,
    #[error("refused {}: {}", .0.number(), *.0)]
    Read(#[from] ReadRefusal),
    #[error(transparent)]
    Orders(#[from] OrdersFailure),
    #[error(transparent)]
    Outside(#[from] io::Error),
    #[error("out of memory")]
    NoMemory(#[from(alloc)] AllocError),
}
