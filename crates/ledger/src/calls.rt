// The calls on a ledger but for a hold, which has a module of its own.
ghost use Rattle.std.specs.Prelude.{◌≡◌, if◌then◌else◌, is_some};
ghost use Rattle.network.specs.Checks.{answered, outcome};
ghost use Rattle.network.specs.Lists.{any_of};
ghost use Rattle.ledger.specs.Ledgers.{ledger_tally};
ghost use Rattle.ledger.specs.Rows.{asked, asked_next};
ghost use Rattle.ledger.specs.Tally.{close_next, close_refusal, end_refusal, opened, reopen_next, reopen_refusal, strike_next, unless_refused};
ghost use Rattle.ledger.specs.Told.{close_told, end_told, reopen_told};

use super::arcs::{ArcUse, change_sold};
use super::ledger::Ledger;
use super::refusals::{CloseRefusal, EndRefusal, ReopenRefusal};
use super::row::{Row, RowCall, apply, row_of};
use network::Network;

impl<N: Network> Ledger<N> {
    // A ledger over a network, empty and with no arc closed.
    pub fn open(network: N) -> Ledger<N>
        ensures tally { ledger_tally result ≡ opened }
        ensures network { result.network ≡ network }
    {
        Ledger {
            network,
            arcs: [ArcUse::default(); 256],
            rows: [Row::Empty; 64],
            given: 0,
        }
    }

    // Puts a call to the row of a ticket; none where there is no such row, or it does not allow the call. A row that turns empty
    // gives back what it took on each of its arcs.
    pub(super) fn turn(&mut self, ticket: u32, call: RowCall) -> Option<()>
        ensures answer { is_some result ≡ any_of (asked call ticket) (ledger_tally self.old).entries }
        ensures tally { ledger_tally self.new ≡ (if is_some result then asked_next call (ledger_tally self.old) ticket else ledger_tally self.old) }
        ensures network { self.new.network ≡ self.old.network }
    {
        let place = row_of(&self.rows, ticket)?;
        let row = &mut self.rows[place];
        let circuit = row.circuit()?;
        if !apply(row, call) {
            return None;
        }
        if row.is_empty() {
            change_sold(
                &mut self.arcs,
                circuit.arcs.as_slice(),
                |sold| sold - circuit.width,
            );
        }
        Some(())
    }

    // Turns the booked row of a ticket empty. Refused with 41 where the ticket is not booked here.
    pub fn end(&mut self, ticket: u32) -> Result<(), EndRefusal>
        ensures answer { outcome (λ x. x) end_told result ≡ answered (end_refusal (ledger_tally self.old) ticket) tt }
        ensures tally { ledger_tally self.new ≡ unless_refused (end_refusal (ledger_tally self.old) ticket) (strike_next (ledger_tally self.old) ticket) (ledger_tally self.old) }
        ensures network { self.new.network ≡ self.old.network }
    {
        self.turn(ticket, RowCall::End).ok_or(EndRefusal::NotBooked)
    }

    // Marks an arc closed. Refused with 42 where there is no such arc, 43 where it is closed already, and 44 where a held or
    // booked row meets it.
    pub fn close(&mut self, arc: u32) -> Result<(), CloseRefusal>
        ensures answer { outcome (λ x. x) close_told result ≡ answered (close_refusal (N.Network.meaning self.old.network) (ledger_tally self.old) arc) tt }
        ensures tally { ledger_tally self.new ≡ unless_refused (close_refusal (N.Network.meaning self.old.network) (ledger_tally self.old) arc) (close_next (ledger_tally self.old) arc) (ledger_tally self.old) }
        ensures network { self.new.network ≡ self.old.network }
    {
        if arc >= u32::from(self.network.arcs()) {
            return Err(CloseRefusal::NoSuchArc);
        }
        let place = arc as usize;
        if self.arcs[place].closed {
            return Err(CloseRefusal::ClosedAlready);
        }
        if self.arcs[place].sold > 0 {
            return Err(CloseRefusal::InUse);
        }
        self.arcs[place].closed = true;
        Ok(())
    }

    // Unmarks a closed arc. Refused with 42 where there is no such arc, and 45 where it is not closed.
    pub fn reopen(&mut self, arc: u32) -> Result<(), ReopenRefusal>
        ensures answer { outcome (λ x. x) reopen_told result ≡ answered (reopen_refusal (N.Network.meaning self.old.network) (ledger_tally self.old) arc) tt }
        ensures tally { ledger_tally self.new ≡ unless_refused (reopen_refusal (N.Network.meaning self.old.network) (ledger_tally self.old) arc) (reopen_next (ledger_tally self.old) arc) (ledger_tally self.old) }
        ensures network { self.new.network ≡ self.old.network }
    {
        if arc >= u32::from(self.network.arcs()) {
            return Err(ReopenRefusal::NoSuchArc);
        }
        let place = arc as usize;
        if !self.arcs[place].closed {
            return Err(ReopenRefusal::NotClosed);
        }
        self.arcs[place].closed = false;
        Ok(())
    }
}
