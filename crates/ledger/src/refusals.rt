// Why a call on a ledger is refused. Each refusal has the number of the check that failed.
ghost use Rattle.ledger.specs.Told.{hold_told, end_told, close_told, reopen_told};

use network::Refusal;
use thiserror::Error;

// Why a hold is refused.
#[derive(Clone, Copy, PartialEq, Eq, Debug, Error)]
pub enum HoldRefusal {
    #[error("the width is 0")]
    WidthZero = 30,
    #[error("a route has 1 to 15 arcs")]
    ArcsOutside = 31,
    #[error("there is no arc of a number in the route")]
    NoSuchArc = 32,
    #[error("an arc begins elsewhere than the one before it ends")]
    NotJoined = 33,
    #[error("the route meets a site twice")]
    SiteTwice = 34,
    #[error("an arc has less free capacity than the width")]
    NoRoom = 35,
    #[error("no row of the ledger is empty")]
    NoEmptyRow = 36,
    #[error("all tickets are given")]
    NoTicketLeft = 37,
}

impl Refusal for HoldRefusal {
    ghost told = { hold_told };

    fn number(&self) -> u32 {
        *self as u32 // 30 to 37
    }
}

// Why a booking is not ended.
#[derive(Clone, Copy, PartialEq, Eq, Debug, Error)]
pub enum EndRefusal {
    #[error("the ticket is not booked here")]
    NotBooked = 41,
}

impl Refusal for EndRefusal {
    ghost told = { end_told };

    fn number(&self) -> u32 {
        *self as u32
    }
}

// Why an arc is not closed.
#[derive(Clone, Copy, PartialEq, Eq, Debug, Error)]
pub enum CloseRefusal {
    #[error("there is no arc of this number")]
    NoSuchArc = 42,
    #[error("the arc is closed already")]
    ClosedAlready = 43,
    #[error("a held or booked row meets the arc")]
    InUse = 44,
}

impl Refusal for CloseRefusal {
    ghost told = { close_told };

    fn number(&self) -> u32 {
        *self as u32 // 42 to 44
    }
}

// Why an arc is not reopened.
#[derive(Clone, Copy, PartialEq, Eq, Debug, Error)]
pub enum ReopenRefusal {
    #[error("there is no arc of this number")]
    NoSuchArc = 42,
    #[error("the arc is not closed")]
    NotClosed = 45,
}

impl Refusal for ReopenRefusal {
    ghost told = { reopen_told };

    fn number(&self) -> u32 {
        *self as u32
    }
}
