// Serves one client: opens a ledger, and answers what the client asks, one request after another.
ghost use Rattle.std.specs.Prelude.{◌≡◌, true, length, is_some, Option};
ghost use Rattle.network.specs.Checks.{first_failed, outcome};
ghost use Rattle.routes.specs.Enquire.{early_checks, enquiry_answer, enquiry_told};
ghost use Rattle.routes.specs.Lent.{five_tables};
ghost use Rattle.ledger.specs.Ledgers.{ledger_meaning, ledger_tally, network_below};
ghost use Rattle.desk.specs.declared.requests.Request.{Request};
ghost use Rattle.desk.specs.declared.requests.Reply.{Reply};
ghost use Rattle.desk.specs.Calls.{enquired};
ghost use Rattle.desk.specs.Questions.{an_answer, telling_by, tally_then};
ghost use Rattle.desk.specs.Turns.{Returned, asking_in, bringing, brought_in, tables_in, telling_in};
ghost use Rattle.desk.specs.Served.{Due, Served};

use super::requests::{Memory, Reply, Request};
use ledger::Ledger;
use length::{Kind, row_length};
use network::Network;
use routes::{Enquiry, EnquiryRefusal, Found, LentTables, Line, RouteRow, enquire};

// Who makes the calls. What it asks, and what it makes of a reply, is its own affair; it says by `asks` and `hears` what
// others may know of it.
pub trait Client<N, K: Kind> {
    ghost asks: { Self → Option (Request N K K.Length) → Self → Type 0 };

    ghost hears: { Self → Reply N K K.Length → Self → Type 0 };

    // The next request, or none if it has no more.
    fn next(&mut self) -> Option<Request<N, K>>
        ensures { asks self.old result self.new };

    // Tells it the reply to the request that it has just made.
    fn told(&mut self, reply: Reply<N, K>)
        requires { Due K.Kind.model asks self.old reply }
        ensures { hears self.old reply self.new };
}

// Enquires in lent memory, slice by slice: what a `Vec` holds once a slice of it went through a struct is not known to a proof,
// so the struct is made here and not where the slices are taken.
fn enquire_with<N: Network, K: Kind>(
    ledger: &Ledger<N>,
    enquiry: &Enquiry<K>,
    lengths: &mut [Option<K::Length>],
    delay: &mut [Option<u32>],
    jitter: &mut [Option<u32>],
    charge: &mut [Option<u32>],
    hops: &mut [Option<u32>],
    notebook: &mut [Line<K::Length>],
    list: &mut [RouteRow],
) -> Result<Found, EnquiryRefusal>
    ensures answer { outcome (λ x. x) enquiry_told result ≡ (enquiry_answer K.Kind.model (ledger_meaning N.Network.meaning ledger.now) (bringing enquiry.now (five_tables lengths.old delay.old jitter.old charge.old hops.old) list.old (length notebook.old))).result }
    ensures tables { five_tables lengths.new delay.new jitter.new charge.new hops.new ≡ (enquiry_answer K.Kind.model (ledger_meaning N.Network.meaning ledger.now) (bringing enquiry.now (five_tables lengths.old delay.old jitter.old charge.old hops.old) list.old (length notebook.old))).tables }
    ensures list { list.new ≡ (enquiry_answer K.Kind.model (ledger_meaning N.Network.meaning ledger.now) (bringing enquiry.now (five_tables lengths.old delay.old jitter.old charge.old hops.old) list.old (length notebook.old))).list }
    ensures notebook { is_some (first_failed (early_checks K.Kind.model (ledger_meaning N.Network.meaning ledger.now) (bringing enquiry.now (five_tables lengths.old delay.old jitter.old charge.old hops.old) list.old (length notebook.old)))) ≡ true → notebook.new ≡ notebook.old }
{
    let mut tables = LentTables {
        length: lengths,
        delay,
        jitter,
        charge,
        hops,
    };
    enquire(ledger, enquiry, &mut tables, notebook, list)
}

// Enquires in a client's own memory.
fn enquire_in<N: Network, K: Kind>(
    ledger: &Ledger<N>,
    enquiry: &Enquiry<K>,
    memory: &mut Memory<K::Length>,
) -> Result<Found, EnquiryRefusal>
    ensures answer { outcome (λ x. x) enquiry_told result ≡ (enquiry_answer K.Kind.model (ledger_meaning N.Network.meaning ledger.now) (brought_in enquiry.now memory.old)).result }
    ensures tables { tables_in memory.new ≡ (enquiry_answer K.Kind.model (ledger_meaning N.Network.meaning ledger.now) (brought_in enquiry.now memory.old)).tables }
    ensures list { memory.new.list.items ≡ (enquiry_answer K.Kind.model (ledger_meaning N.Network.meaning ledger.now) (brought_in enquiry.now memory.old)).list }
    ensures lines { length memory.new.notebook.items ≡ length memory.old.notebook.items }
    ensures notebook { is_some (first_failed (early_checks K.Kind.model (ledger_meaning N.Network.meaning ledger.now) (brought_in enquiry.now memory.old))) ≡ true → memory.new.notebook.items ≡ memory.old.notebook.items }
{
    enquire_with(
        ledger,
        enquiry,
        memory.length.as_mut_slice(),
        memory.delay.as_mut_slice(),
        memory.jitter.as_mut_slice(),
        memory.charge.as_mut_slice(),
        memory.hops.as_mut_slice(),
        memory.notebook.as_mut_slice(),
        memory.list.as_mut_slice(),
    )
}

// Enquires, and gives the memory back.
fn answer_enquiry<N: Network, K: Kind + Drop>(
    ledger: &Ledger<N>,
    enquiry: Enquiry<K>,
    mut memory: Memory<K::Length>,
) -> Reply<N, K>
    ensures answer { telling_in result ≡ an_answer (enquired (enquiry_answer K.Kind.model (ledger_meaning N.Network.meaning ledger.now) (brought_in enquiry memory))) }
    ensures returned { Returned (record { request = Request.Enquire enquiry memory; reply = result }) }
{
    let found = enquire_in(ledger, &enquiry, &mut memory);
    Reply::Enquired(found, memory)
}

// Makes the call that a request is.
fn respond<N: Network, K: Kind + Drop>(
    ledger: &mut Ledger<N>,
    request: Request<N, K>,
) -> Reply<N, K>
    ensures answer { telling_in result ≡ telling_by K.Kind.model (N.Network.meaning (network_below ledger.old)) (ledger_tally ledger.old) (asking_in request) }
    ensures tally { ledger_tally ledger.new ≡ tally_then (N.Network.meaning (network_below ledger.old)) (ledger_tally ledger.old) (asking_in request) }
    ensures below { network_below ledger.new ≡ network_below ledger.old }
    ensures returned { Returned (record { request = request; reply = result }) }
{
    match request {
        Request::Enquire(enquiry, memory) => answer_enquiry(&*ledger, enquiry, memory),
        Request::Hold(width, arcs) => {
            let held = ledger.hold(width, arcs.as_slice());
            Reply::Held(held, arcs)
        }
        Request::Confirm(slip) => Reply::Confirmed(slip.confirm(ledger)),
        Request::LetGo(slip) => Reply::LetGo(slip.let_go(ledger)),
        Request::End(ticket) => Reply::Ended(ledger.end(ticket)),
        Request::Close(arc) => Reply::Closed(ledger.close(arc)),
        Request::Reopen(arc) => Reply::Reopened(ledger.reopen(arc)),
        Request::Ask(arc) => Reply::Shown(ledger.arc(arc)),
        Request::Measure(kind, arcs) => {
            let length = row_length(&*ledger, &kind, arcs.as_slice());
            Reply::Measured(length, arcs)
        }
    }
}

// Opens a ledger over a network and answers a client's requests, until it has no more or so many turns are made, and hands
// the ledger over as it then stands.
pub fn serve<N: Network, K: Kind + Drop, C: Client<N, K>>(
    network: N,
    client: &mut C,
    most: u32,
) -> Ledger<N>
    ensures { Served K.Kind.model N.Network.meaning C.Client.asks C.Client.hears network most client.old client.new result }
{
    let mut ledger = Ledger::open(network);
    for _turn in 0..most {
        let Some(request) = client.next() else {
            return ledger;
        };
        let reply = respond(&mut ledger, request);
        client.told(reply);
    }
    ledger
}
