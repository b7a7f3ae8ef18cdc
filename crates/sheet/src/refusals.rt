// Why bytes are no sheet, and why a sheet is not written.
ghost use Rattle.std.specs.Prelude.{◌≡◌};
ghost use Rattle.sheet.specs.Layout.{read_told, write_told};

use network::Refusal;
use thiserror::Error;

// Why a row of bytes is no sheet. `at` is the bit position of the field at fault, counted from 0.
#[derive(Clone, Copy, PartialEq, Eq, Debug, Error)]
pub enum ReadRefusal {
    #[error("a sheet has at least 2 bytes")]
    NoHead,
    #[error("a network has 2 to 64 sites")]
    SitesOutside,
    #[error("a network has at most 256 arcs")]
    TooManyArcs,
    #[error("a sheet has 2 bytes and 8 for each arc")]
    WrongByteCount,
    #[error("an arc begins or ends at a site that is not there")]
    NoSuchSite { at: u32 },
    // `at` is the position of the end
    #[error("an arc ends at the site where it begins")]
    SameSite { at: u32 },
}

impl Refusal for ReadRefusal {
    ghost told = { read_told };

    // A match, since a variant that carries a position has no number to cast.
    fn number(&self) -> u32 {
        match self {
            ReadRefusal::NoHead => 1,
            ReadRefusal::SitesOutside => 2,
            ReadRefusal::TooManyArcs => 3,
            ReadRefusal::WrongByteCount => 4,
            ReadRefusal::NoSuchSite { .. } => 5,
            ReadRefusal::SameSite { .. } => 6,
        }
    }
}

impl ReadRefusal {
    // The bit position of the field at fault, where there is one.
    pub fn position(self) -> Option<u32>
        ensures { result ≡ (read_told self).position }
    {
        match self {
            ReadRefusal::NoSuchSite { at } | ReadRefusal::SameSite { at } => Some(at),
            _ => None,
        }
    }
}

// Why a sheet is not written. The refusal has the number of the check that failed.
#[derive(Clone, Copy, PartialEq, Eq, Debug, Error)]
pub enum WriteRefusal {
    #[error("the buffer is shorter than the sheet")]
    BufferTooShort = 7,
}

impl Refusal for WriteRefusal {
    ghost told = { write_told };

    fn number(&self) -> u32 {
        *self as u32
    }
}
