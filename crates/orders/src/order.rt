// Orders as values, and why a line is none.
use length::StandardKind;
use routes::Enquiry;
use std::alloc::AllocError;
use std::fmt;
use thiserror::Error;

// How many lines of a notebook count, and how many it has where an enquiry names no number.
pub(super) const LINES: u32 = 4096;

// What one line of a text of orders asks.
#[derive(Drop)]
pub enum Order {
    // what is asked, and how many lines the notebook has
    Enquire(Enquiry<StandardKind>, u32),
    // a width, and the arcs of a route
    Hold(u32, Vec<u32>),
    // a ticket, here and in the next two
    Confirm(u32),
    LetGo(u32),
    End(u32),
    // the number of an arc, here and in the next two
    Close(u32),
    Reopen(u32),
    Free(u32),
}

// What an order is about.
#[derive(Clone, Copy)]
pub(super) enum Subject {
    // routes, by a kind of length
    Routes(StandardKind),
    // one route
    Route,
    Ticket(u32),
    Arc(u32),
}

impl fmt::Display for Subject {
    fn fmt<W: fmt::Write>(&self, f: &mut fmt::Formatter<W>) -> fmt::Result {
        match self {
            Subject::Routes(_) => write!(f, "routes"),
            Subject::Route => write!(f, "route"),
            Subject::Ticket(ticket) => write!(f, "ticket {ticket}"),
            Subject::Arc(number) => write!(f, "arc {number}"),
        }
    }
}

impl Order {
    // What the order is about.
    pub(super) fn subject(&self) -> Subject {
        match self {
            Order::Enquire(enquiry, _) => Subject::Routes(enquiry.kind),
            Order::Hold(_, _) => Subject::Route,
            Order::Confirm(ticket) | Order::LetGo(ticket) | Order::End(ticket) => {
                Subject::Ticket(*ticket)
            }
            Order::Close(number) | Order::Reopen(number) | Order::Free(number) => {
                Subject::Arc(*number)
            }
        }
    }
}

// Why a line is not an order.
#[derive(Clone, Copy, PartialEq, Eq, Debug, Error)]
pub enum OrderFault {
    #[error("a line begins with enquire, hold, confirm, let-go, end, close, reopen or free")]
    UnknownOrder,
    #[error("a number of at most 4294967295 is wanted")]
    NotANumber,
    #[error("the line ends too early")]
    MissingWord,
    #[error("an enquiry reads: enquire S D width W delay X jitter X charge X hops X wanted N by KIND [notebook L]")]
    WrongWord,
    #[error("a kind is weight, delay, jitter, charge, hops or width")]
    UnknownKind,
    #[error("there are words after the order")]
    TooManyWords,
    #[error("out of memory")]
    NoMemory(#[from(alloc)] AllocError),
}

// A line that is not blank: its number, counted from 1, and the order, or why it is none.
#[derive(Drop)]
pub struct NumberedOrder {
    pub line: usize,
    pub order: Result<Order, OrderFault>,
}
