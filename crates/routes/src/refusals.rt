// Why an enquiry is refused. Each refusal has the number of the check that failed.
ghost use Rattle.routes.specs.Enquire.{enquiry_told};

use network::Refusal;
use thiserror::Error;

#[derive(Clone, Copy, PartialEq, Eq, Debug, Error)]
pub enum EnquiryRefusal {
    #[error("the source or the destination is no site of the network")]
    NoSuchSite = 20,
    #[error("the source is the destination")]
    SameSite = 21,
    #[error("the width is 0")]
    WidthZero = 22,
    #[error("the hop limit is outside 1 to 15")]
    HopsOutside = 23,
    #[error("the wanted number is outside 1 to 32")]
    WantedOutside = 24,
    #[error("the list has fewer rows than routes are wanted")]
    ListTooShort = 25,
    #[error("a table has fewer places than the network has sites")]
    TableTooShort = 26,
    #[error("the notebook has too few lines")]
    TooFewLines = 27,
}

impl Refusal for EnquiryRefusal {
    ghost told = { enquiry_told };

    fn number(&self) -> u32 {
        *self as u32
    }
}
