// The order book: which order is at hand, what is said of it, and what was done so far.
use super::failure::OrdersFailure;
use super::order::{LINES, NumberedOrder, Order, OrderFault, Subject};
use super::output::Output;
use desk::Memory;
use length::{RowRefusal, StandardKind};
use network::{Arc, Refusal};
use routes::{EnquiryRefusal, Found, Line, RouteRow};
use std::alloc::{AllocError, Global};
use std::collections::VecDeque;
use std::fmt;
use std::vec::IntoIter;

// How many places a table and a list have.
const SITES: usize = 64;

const ROWS: usize = 32;

// The routes of an answered enquiry that are still to be said, each once its length is known.
#[derive(Drop)]
struct Listing {
    kind: StandardKind,
    rows: VecDeque<RouteRow>,
}

// How many orders were read, and what became of them.
#[derive(Clone, Copy, Default)]
struct Account {
    orders: u32,
    granted: u32,
    refused: u32,
    not_carried_out: u32,
    booked: u32,
}

impl fmt::Display for Account {
    fn fmt<W: fmt::Write>(&self, f: &mut fmt::Formatter<W>) -> fmt::Result {
        write!(
            f,
            "orders {}, granted {}, refused {}, not carried out {}, circuits booked {}",
            self.orders, self.granted, self.refused, self.not_carried_out, self.booked
        )
    }
}

// Counts one more.
fn count_one(count: &mut u32) {
    *count = count.saturating_add(1);
}

// Arc numbers with '-' between them.
#[derive(Drop)]
struct Joined<'a>(&'a [u32]);

impl fmt::Display for Joined<'_> {
    fn fmt<W: fmt::Write>(&self, f: &mut fmt::Formatter<W>) -> fmt::Result {
        let Some((first, others)) = self.0.split_first() else {
            return Ok(());
        };
        write!(f, "{first}")?;
        for number in others {
            write!(f, "-{number}")?;
        }
        Ok(())
    }
}

#[derive(Drop)]
pub(super) struct OrderBook {
    heap: Global,
    orders: IntoIter<NumberedOrder>,
    // what the order at hand is about
    subject: Subject,
    listing: Option<Listing>,
    account: Account,
    pub(super) output: Output,
}

// The memory for one enquiry.
fn new_memory(heap: Global, lines: u32) -> Result<Memory<u32>, AllocError> {
    let table = || vec![in heap; None; SITES];
    Ok(Memory {
        length: table()?,
        delay: table()?,
        jitter: table()?,
        charge: table()?,
        hops: table()?,
        notebook: vec![in heap; Line::blank(0); lines.min(LINES) as usize]?,
        list: vec![in heap; RouteRow::default(); ROWS]?,
    })
}

impl OrderBook {
    // A book of orders, none of them carried out.
    pub(super) fn new(rt: HostRuntime, orders: Vec<NumberedOrder>) -> OrderBook {
        OrderBook {
            heap: rt.alloc(),
            orders: orders.into_iter(),
            subject: Subject::Route,
            listing: None,
            account: Account::default(),
            output: Output::new(rt),
        }
    }

    // How many orders are still to be looked at.
    pub(super) fn left(&self) -> usize {
        self.orders.len()
    }

    // The memory for an enquiry with so many lines.
    pub(super) fn memory(&mut self, lines: u32) -> Option<Memory<u32>> {
        self.output.given(new_memory(self.heap, lines))
    }

    // What the length of the next route to be said is asked by: a kind, and the arcs of the route.
    pub(super) fn next_route(&mut self) -> Option<(StandardKind, Vec<u32>)> {
        if self.output.has_failed() {
            return None;
        }
        let Listing { kind, rows } = self.listing.as_ref()?;
        let row = rows.front()?;
        let arcs = row.arcs.iter().take(row.count as usize).copied();
        Some((*kind, self.output.given(arcs.collect(self.heap))?))
    }

    // The next order of the book, or why its line is none.
    pub(super) fn next_order(&mut self) -> Option<Result<Order, OrderFault>> {
        if self.output.has_failed() {
            return None;
        }
        let NumberedOrder { line, order } = self.orders.next()?;
        self.output.line = line;
        count_one(&mut self.account.orders);
        if let Ok(order) = &order {
            self.subject = order.subject();
        }
        Some(order)
    }

    // Counts the order at hand as granted, and says what came of it.
    pub(super) fn granted<D: fmt::Display + Drop>(&mut self, what: D) {
        count_one(&mut self.account.granted);
        self.output.say(what);
    }

    // Counts the order at hand as not carried out, and says why.
    pub(super) fn not_carried_out<D: fmt::Display + Drop>(&mut self, why: D) {
        count_one(&mut self.account.not_carried_out);
        self.output.say(why);
    }

    // Says that the order at hand is refused, by the number of the check and in words.
    pub(super) fn refused<R: Refusal>(&mut self, refusal: &R) {
        count_one(&mut self.account.refused);
        self.output
            .say(format_args!("refused {} {refusal}", refusal.number()));
    }

    // Says what became of the ticket or the arc that the order at hand is about.
    pub(super) fn done(&mut self, what: &str) {
        let subject = self.subject;
        self.granted(format_args!("{subject} {what}"));
    }

    // Says what became of the ticket or the arc, or that the order is refused.
    pub(super) fn done_unless_refused<R: Refusal>(&mut self, answer: &Result<(), R>, what: &str) {
        match answer {
            Ok(()) => self.done(what),
            Err(refusal) => self.refused(refusal),
        }
    }

    // Counts a circuit that is booked.
    pub(super) fn count_booked(&mut self) {
        count_one(&mut self.account.booked);
    }

    // Says how many routes an enquiry found and its line count; the routes are said one by one after it.
    pub(super) fn enquired(&mut self, answer: Result<Found, EnquiryRefusal>, memory: Memory<u32>) {
        match answer {
            Ok(Found { routes, lines }) => {
                self.granted(format_args!("{routes} routes, {lines} lines"));
                if let Subject::Routes(kind) = self.subject {
                    let mut rows = VecDeque::from(memory.list);
                    rows.truncate(routes as usize);
                    self.listing = Some(Listing { kind, rows });
                }
            }
            Err(refusal) => self.refused(&refusal),
        }
    }

    // Says the next route of an enquiry: its arcs, its length and its totals.
    pub(super) fn measured(&mut self, answer: Result<u32, RowRefusal>, arcs: &[u32]) {
        let next = self
            .listing
            .as_mut()
            .and_then(|listing| listing.rows.pop_front());
        if let (Ok(length), Some(row)) = (answer, next) {
            self.output.say_more(format_args!(
                "  {} length {length} delay {} jitter {} charge {}",
                Joined(arcs),
                row.delay,
                row.jitter,
                row.charge
            ));
        }
    }

    // Says the free capacity of an arc, or that there is no such arc.
    pub(super) fn shown(&mut self, shown: Option<Arc>) {
        let subject = self.subject;
        match shown {
            Some(arc) => self.granted(format_args!("{subject} free {}", arc.capacity)),
            None => self.not_carried_out(format_args!("no {subject}")),
        }
    }

    // Says what was done, with the number of slips that were left at the end; or why not all was done.
    pub(super) fn close(self, let_go: u32) -> Result<(), OrdersFailure> {
        let mut output = self.output;
        if self.orders.len() > 0 {
            output.given::<(), _>(Err(OrdersFailure::TooManyCalls));
        }
        output.close(format_args!("{}, slips let go {let_go}", self.account))
    }
}
