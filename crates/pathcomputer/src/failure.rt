// Why a command is not carried out, in words and figures.
use length::LeastTotalsRefusal;
use network::{Refusal, RingRefusal};
use orders::OrdersFailure;
use sheet::{ReadRefusal, WriteRefusal};
use std::alloc::AllocError;
use std::num::ParseIntError;
use std::{fmt, io};
use thiserror::Error;

// What is wrong with a line of a table.
#[derive(Clone, Copy, PartialEq, Eq, Debug, Error)]
pub enum Fault {
    #[error("a line begins with 'sites', 'arc' or '#'")]
    UnknownWord,
    #[error("a figure is a number of at most 4294967295")]
    NotANumber,
    #[error("'sites' takes 1 figure, 'arc' 7")]
    MissingFigure,
    #[error("'sites' takes 1 figure, 'arc' 7")]
    TooManyWords,
    #[error("'sites' stands once")]
    SitesTwice,
    #[error("'sites' stands before the first arc")]
    ArcBeforeSites,
    #[error("a network has 2 to 64 sites")]
    SitesOutside,
    #[error("a network has at most 256 arcs")]
    TooManyArcs,
    #[error("an arc begins or ends at a site that is not there")]
    NoSuchSite,
    #[error("an arc ends at the site where it begins")]
    SameSite,
    #[error("a figure is over its limit (weight and delay 4095, jitter and charge 1023, capacity 255)")]
    FigureOverLimit,
    #[error("out of memory")]
    NoMemory(#[from(alloc)] AllocError),
}

// A refusal as this program says it, with a ':' where `limits` has a ',': the number of the check that failed, the bit of a sheet where it did, if there is one,
// and the reason.
#[derive(Drop)]
struct Refused<'a, R> {
    refusal: &'a R,
    bit: Option<u32>,
}

impl<R: Refusal> fmt::Display for Refused<'_, R> {
    fn fmt<W: fmt::Write>(&self, f: &mut fmt::Formatter<W>) -> fmt::Result {
        write!(f, "refused {}", self.refusal.number())?;
        if let Some(bit) = self.bit {
            write!(f, " at bit {bit}")?;
        }
        write!(f, ": {}", self.refusal)
    }
}

// Why a command is not carried out.
#[derive(Debug, Drop, Error)]
pub enum Failure {
    // the words of the call are no command
    #[error("no such command, or not its arguments: 'pathcomputer' alone prints the usage")]
    Usage,
    #[error("an argument is to be a number of at most 4294967295")]
    NotANumber(#[from] ParseIntError),
    // a line of a table is at fault; lines count from 1
    #[error("malformed table, line {line}: {fault}")]
    Malformed { line: usize, fault: Fault },
    #[error("malformed table: it has no line 'sites'")]
    NoSites,
    // the library refused
    #[error("{}", Refused {refusal: .0, bit: None})]
    Ring(#[from] RingRefusal),
    #[error("{}", Refused {refusal: .0, bit: .0.position()})]
    Read(#[from] ReadRefusal),
    #[error("{}", Refused {refusal: .0, bit: None})]
    Write(#[from] WriteRefusal),
    #[error("{}", Refused {refusal: .0, bit: None})]
    Totals(#[from] LeastTotalsRefusal),
    // a file or a stream
    #[error(transparent)]
    Outside(#[from] io::Error),
    // orders were not carried out to the end
    #[error(transparent)]
    Orders(#[from] OrdersFailure),
    #[error("out of memory")]
    NoMemory(#[from(alloc)] AllocError),
}
