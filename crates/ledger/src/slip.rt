// Slips: each is the right to confirm or to let go the held row of its ticket, once.
ghost use Rattle.std.specs.Prelude.{◌≡◌};
ghost use Rattle.network.specs.Checks.{answered, outcome};
ghost use Rattle.ledger.specs.Ledgers.{ledger_tally};
ghost use Rattle.ledger.specs.Rows.{asked_next};
ghost use Rattle.ledger.specs.Slips.{asked_refusal, handed_back, if_refused, slip_in, slip_told};
ghost use Rattle.ledger.specs.Tally.{confirm_next, slip_refusal, strike_next, unless_refused};

use super::ledger::Ledger;
use super::row::RowCall;
use network::{Network, Refusal};
use std::fmt;
use std::marker::PhantomData;

// It cannot be copied or forgotten: it is spent by `confirm` or `let_go`.
pub struct Slip<N> {
    ticket: u32,
    network: PhantomData<N>,
}

// Why a slip is not spent; the slip is inside.
pub enum SlipRefusal<N> {
    // the ticket is not held here
    NotHeld(Slip<N>),
}

impl<N: Network> Refusal for SlipRefusal<N> {
    ghost told = { slip_told };

    // A match, since a variant that holds a slip has no number to cast.
    fn number(&self) -> u32 {
        match self {
            SlipRefusal::NotHeld(_) => 40,
        }
    }
}

impl<N: Network> SlipRefusal<N> {
    // Gives the slip back.
    pub fn slip(self) -> Slip<N>
        ensures { result ≡ slip_in self }
    {
        match self {
            SlipRefusal::NotHeld(slip) => slip,
        }
    }
}

// Not derived, since the slip in it cannot be dropped, as an error has to be.
impl<N: Network> fmt::Display for SlipRefusal<N> {
    fn fmt<W: fmt::Write>(&self, f: &mut fmt::Formatter<W>) -> fmt::Result {
        match self {
            SlipRefusal::NotHeld(_) => write!(f, "the ticket is not held here"),
        }
    }
}

impl<N: Network> Slip<N> {
    // The slip of a ticket. Only a hold gives one.
    pub(super) fn new(ticket: u32) -> Slip<N>
        ensures { result.ticket ≡ ticket }
    {
        Slip {
            ticket,
            network: PhantomData,
        }
    }

    // The ticket of the row that the slip is for.
    pub fn ticket(&self) -> u32
        ensures { result ≡ self.now.ticket }
    {
        self.ticket
    }

    // Puts a call to the row of the slip's ticket, and spends the slip. Handed back where there is no row that allows the call.
    fn spend(self, ledger: &mut Ledger<N>, call: RowCall) -> Result<(), SlipRefusal<N>>
        ensures answer { outcome (λ x. x) slip_told result ≡ answered (asked_refusal call (ledger_tally ledger.old) self.ticket) tt }
        ensures slip { handed_back result ≡ if_refused (asked_refusal call (ledger_tally ledger.old) self.ticket) self }
        ensures tally { ledger_tally ledger.new ≡ unless_refused (asked_refusal call (ledger_tally ledger.old) self.ticket) (asked_next call (ledger_tally ledger.old) self.ticket) (ledger_tally ledger.old) }
        ensures network { ledger.new.network ≡ ledger.old.network }
    {
        if ledger.turn(self.ticket, call).is_none() {
            return Err(SlipRefusal::NotHeld(self));
        }
        let Slip {
            ticket: _,
            network: _,
        } = self;
        Ok(())
    }

    // Turns the held row of the slip's ticket booked, and spends the slip. Refused with 40, and the slip handed back, where the
    // ticket is not held here.
    pub fn confirm(self, ledger: &mut Ledger<N>) -> Result<(), SlipRefusal<N>>
        ensures answer { outcome (λ x. x) slip_told result ≡ answered (slip_refusal (ledger_tally ledger.old) self.ticket) tt }
        ensures slip { handed_back result ≡ if_refused (slip_refusal (ledger_tally ledger.old) self.ticket) self }
        ensures tally { ledger_tally ledger.new ≡ unless_refused (slip_refusal (ledger_tally ledger.old) self.ticket) (confirm_next (ledger_tally ledger.old) self.ticket) (ledger_tally ledger.old) }
        ensures network { ledger.new.network ≡ ledger.old.network }
    {
        self.spend(ledger, RowCall::Confirm)
    }

    // Turns the held row of the slip's ticket empty, and spends the slip. Refused with 40, and the slip handed back, where the
    // ticket is not held here.
    pub fn let_go(self, ledger: &mut Ledger<N>) -> Result<(), SlipRefusal<N>>
        ensures answer { outcome (λ x. x) slip_told result ≡ answered (slip_refusal (ledger_tally ledger.old) self.ticket) tt }
        ensures slip { handed_back result ≡ if_refused (slip_refusal (ledger_tally ledger.old) self.ticket) self }
        ensures tally { ledger_tally ledger.new ≡ unless_refused (slip_refusal (ledger_tally ledger.old) self.ticket) (strike_next (ledger_tally ledger.old) self.ticket) (ledger_tally ledger.old) }
        ensures network { ledger.new.network ≡ ledger.old.network }
    {
        self.spend(ledger, RowCall::LetGo)
    }
}
