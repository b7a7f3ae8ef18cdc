// The clerk: makes the calls that the orders of a book ask for, and keeps the slips.
ghost use Rattle.std.specs.Prelude.{◌≡◌, ◌++◌, true, is_err};
ghost use Rattle.length.specs.Standard.{standard};
ghost use Rattle.desk.specs.Served.{Due};
ghost use Rattle.orders.specs.InHand.{Asks, Hears, Room, Taken, came_back, in_hand};

use super::book::OrderBook;
use super::failure::OrdersFailure;
use super::order::{NumberedOrder, Order};
use super::pocket::Pocket;
use desk::{Client, Reply, Request, serve};
use ledger::{Slip, SlipRefusal};
use length::StandardKind;
use network::Network;

pub(super) struct Clerk<N> {
    pub(super) pocket: Pocket<N>,
    book: OrderBook,
}

impl<N: Network> Clerk<N> {
    // Takes the slip of a ticket out, or says that none is in hand.
    fn slip_of(&mut self, ticket: u32) -> Option<Slip<N>>
        ensures { Taken self.old.pocket ticket result self.new.pocket }
    {
        let slip = self.pocket.take(ticket);
        if slip.is_none() {
            self.book.not_carried_out(format_args!("no slip {ticket}"));
        }
        slip
    }

    // The request for an order, or none where no call is to be made.
    fn request(&mut self, order: Order) -> Option<Request<N, StandardKind>>
        ensures { Asks self.old result self.new }
    {
        Some(match order {
            Order::Enquire(enquiry, lines) => Request::Enquire(enquiry, self.book.memory(lines)?),
            Order::Hold(width, arcs) => {
                let room = self.pocket.make_room();
                self.book.output.given(room)?;
                Request::Hold(width, arcs)
            }
            Order::Confirm(ticket) => Request::Confirm(self.slip_of(ticket)?),
            Order::LetGo(ticket) => Request::LetGo(self.slip_of(ticket)?),
            Order::End(ticket) => Request::End(ticket),
            Order::Close(arc) => Request::Close(arc),
            Order::Reopen(arc) => Request::Reopen(arc),
            Order::Free(arc) => Request::Ask(arc),
        })
    }

    // Says what became of a slip, and keeps it where it came back.
    fn spent(&mut self, answer: Result<(), SlipRefusal<N>>, what: &str)
        requires { is_err answer ≡ true → Room self.old.pocket }
        ensures { in_hand self.new.pocket ≡ in_hand self.old.pocket ++ came_back answer }
    {
        self.book.done_unless_refused(&answer, what);
        if let Err(refusal) = answer {
            self.pocket.keep(refusal.slip());
        }
    }
}

impl<N: Network> Client<N, StandardKind> for Clerk<N> {
    ghost asks = { Asks };

    ghost hears = { Hears };

    fn next(&mut self) -> Option<Request<N, StandardKind>> {
        if let Some((kind, arcs)) = self.book.next_route() {
            return Some(Request::Measure(kind, arcs));
        }
        for _order in 0..self.book.left() {
            match self.book.next_order()? {
                Ok(order) => {
                    if let Some(request) = self.request(order) {
                        return Some(request);
                    }
                }
                Err(fault) => self
                    .book
                    .not_carried_out(format_args!("not an order: {fault}")),
            }
        }
        None
    }

    fn told(&mut self, reply: Reply<N, StandardKind>)
        requires { Due standard Asks self.old reply }
        ensures { Hears self.old reply self.new }
    {
        match reply {
            Reply::Enquired(answer, memory) => self.book.enquired(answer, memory),
            Reply::Held(Ok(slip), _) => {
                self.book.granted(format_args!("ticket {}", slip.ticket()));
                self.pocket.keep(slip);
            }
            Reply::Held(Err(refusal), _) => self.book.refused(&refusal),
            Reply::Confirmed(answer) => {
                if answer.is_ok() {
                    self.book.count_booked();
                }
                self.spent(answer, "booked");
            }
            Reply::LetGo(answer) => self.spent(answer, "let go"),
            Reply::Ended(answer) => self.book.done_unless_refused(&answer, "ended"),
            Reply::Closed(answer) => self.book.done_unless_refused(&answer, "closed"),
            Reply::Reopened(answer) => self.book.done_unless_refused(&answer, "reopened"),
            Reply::Shown(arc) => self.book.shown(arc),
            Reply::Measured(answer, arcs) => self.book.measured(answer, arcs.as_slice()),
        }
    }
}

// Carries out orders on a new ledger over a network, one after another, and says what is answered to each. Slips that are
// left at the end are let go.
pub fn carry_out<N: Network + Drop>(
    rt: &HostRuntime,
    network: N,
    orders: Vec<NumberedOrder>,
) -> Result<(), OrdersFailure> {
    let book = OrderBook::new(rt.clone()?, orders);
    let mut clerk = Clerk {
        pocket: Pocket::empty(rt.alloc()),
        book,
    };
    let mut ledger = serve(network, &mut clerk, u32::MAX);
    let Clerk { pocket, book } = clerk;
    let let_go = pocket.let_all_go(&mut ledger);
    book.close(let_go)
}
