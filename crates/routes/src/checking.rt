// The checks of an enquiry before the work begins.
ghost use Rattle.std.specs.Prelude.{◌≡◌};
ghost use Rattle.network.specs.Checks.{answered, first_failed, outcome};
ghost use Rattle.routes.specs.Enquire.{enquiry_told};
ghost use Rattle.routes.specs.Sizes.{size_checks};

use super::enquiry::Enquiry;
use super::refusals::EnquiryRefusal;

// How many sites there are, and how long the lent list and the shortest of the lent tables are.
#[derive(Clone, Copy)]
pub(super) struct Sizes {
    pub(super) sites: usize,
    pub(super) list: usize,
    pub(super) tables: usize,
}

// The checks before the work begins, refused with the first that fails.
pub(super) fn early_checks<K>(enquiry: &Enquiry<K>, sizes: Sizes) -> Result<(), EnquiryRefusal>
    ensures { outcome (λ x. x) enquiry_told result ≡ answered (first_failed (size_checks enquiry.now sizes)) tt }
{
    if enquiry.source as usize >= sizes.sites || enquiry.destination as usize >= sizes.sites {
        return Err(EnquiryRefusal::NoSuchSite);
    }
    if enquiry.source == enquiry.destination {
        return Err(EnquiryRefusal::SameSite);
    }
    if enquiry.width == 0 {
        return Err(EnquiryRefusal::WidthZero);
    }
    // by two comparisons: the proof of `contains` is found only with the search's full limits
    if enquiry.limits.hops < 1 || enquiry.limits.hops > 15 {
        return Err(EnquiryRefusal::HopsOutside);
    }
    if enquiry.wanted < 1 || enquiry.wanted > 32 {
        return Err(EnquiryRefusal::WantedOutside);
    }
    if sizes.list < enquiry.wanted as usize {
        return Err(EnquiryRefusal::ListTooShort);
    }
    if sizes.tables < sizes.sites {
        return Err(EnquiryRefusal::TableTooShort);
    }
    Ok(())
}
