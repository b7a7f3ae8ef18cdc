// Refusals as this program shows them. `pathcomputer` has a ':' for the ','; one wrapper in the library that takes the mark
// from each program would be no plainer.
use network::Refusal;
use std::{fmt, io};

// The number of the check that failed, the bit of a sheet where it did, if there is one, and the reason.
#[derive(Drop)]
pub struct Refused<'a, R> {
    pub refusal: &'a R,
    pub bit: Option<u32>,
}

impl<'a, R: Refusal> Refused<'a, R> {
    // A refusal with no bit.
    pub fn new(refusal: &'a R) -> Refused<'a, R> {
        Refused { refusal, bit: None }
    }
}

impl<R: Refusal> fmt::Display for Refused<'_, R> {
    fn fmt<W: fmt::Write>(&self, f: &mut fmt::Formatter<W>) -> fmt::Result {
        write!(f, "refused {}", self.refusal.number())?;
        if let Some(bit) = self.bit {
            write!(f, " at bit {bit}")?;
        }
        write!(f, ", {}", self.refusal)
    }
}

// A refusal that does not come about in what is tried here, as the error that the program then ends with.
pub fn unexpected<R: Refusal + Drop>(_refusal: R) -> io::Error {
    io::Error::other("refused where nothing is refused")
}
