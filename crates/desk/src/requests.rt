// What a client asks of a ledger and is told: calls that own what they bring, and replies that give it back.
use ledger::{CloseRefusal, EndRefusal, HoldRefusal, ReopenRefusal, Slip, SlipRefusal};
use length::{Kind, RowRefusal};
use network::Arc;
use routes::{Enquiry, EnquiryRefusal, Found, Line, RouteRow};

// The memory that an enquiry works in: the five tables, the notebook and the list. The five are owned here and lent in
// `LentTables`; one struct for both would take a type parameter for each kind of field and read no plainer.
#[derive(Drop)]
pub struct Memory<L> {
    pub length: Vec<Option<L>>,
    pub delay: Vec<Option<u32>>,
    pub jitter: Vec<Option<u32>>,
    pub charge: Vec<Option<u32>>,
    pub hops: Vec<Option<u32>>,
    pub notebook: Vec<Line<L>>,
    pub list: Vec<RouteRow>,
}

// One call on a ledger, or one question to it as a network, with all that it brings.
pub enum Request<N, K: Kind> {
    Enquire(Enquiry<K>, Memory<K::Length>),
    // a width, and the arcs of a route
    Hold(u32, Vec<u32>),
    Confirm(Slip<N>),
    LetGo(Slip<N>),
    // a ticket
    End(u32),
    // the number of an arc, here and in the next two
    Close(u32),
    Reopen(u32),
    Ask(u32),
    // the length of a row of arcs in a kind
    Measure(K, Vec<u32>),
}

// The answer to a request, with the memory that it brought.
pub enum Reply<N, K: Kind> {
    Enquired(Result<Found, EnquiryRefusal>, Memory<K::Length>),
    Held(Result<Slip<N>, HoldRefusal>, Vec<u32>),
    Confirmed(Result<(), SlipRefusal<N>>),
    LetGo(Result<(), SlipRefusal<N>>),
    Ended(Result<(), EndRefusal>),
    Closed(Result<(), CloseRefusal>),
    Reopened(Result<(), ReopenRefusal>),
    // the arc with the capacity that is free, if there is one of that number
    Shown(Option<Arc>),
    Measured(Result<K::Length, RowRefusal>, Vec<u32>),
}
