// One row of a ledger, and the calls that change it.
ghost use Rattle.std.specs.Prelude.{◌≡◌, is_some, not, position, unwrap_or};
ghost use Rattle.ledger.specs.Rows.{circuit_in, has_ticket, in_use, row_next};

use network::ArcNumbers;

// A route with a width and a ticket.
#[derive(Clone, Copy)]
pub struct Circuit {
    pub ticket: u32,
    pub width: u8,
    pub arcs: ArcNumbers,
}

// An empty row is free, a held one waits for its slip, and a booked one stays until it is ended.
#[derive(Clone, Copy)]
pub enum Row {
    Empty,
    Held(Circuit),
    Booked(Circuit),
}

// What may be asked of a row.
#[derive(Clone, Copy)]
pub enum RowCall {
    Hold(Circuit),
    Confirm,
    LetGo,
    End,
}

impl Row {
    // The circuit in a row that is held or booked.
    pub(super) fn circuit(&self) -> Option<Circuit>
        ensures { result ≡ circuit_in self.now }
    {
        match *self {
            Row::Empty => None,
            Row::Held(circuit) | Row::Booked(circuit) => Some(circuit),
        }
    }

    // Whether a row is in use and of a ticket.
    fn has_ticket(&self, ticket: u32) -> bool
        ensures { result ≡ has_ticket ticket self.now }
    {
        match self {
            Row::Empty => false,
            Row::Held(circuit) | Row::Booked(circuit) => circuit.ticket == ticket,
        }
    }

    // Whether a row is empty.
    pub(super) fn is_empty(&self) -> bool
        ensures { result ≡ not (in_use self.now) }
    {
        matches!(self, Row::Empty)
    }
}

// Puts a call to a row, and answers whether the row allows it; if not, the row stays as it is. By a rule of the project one
// match on the row and the call together changes the row in place, so the calls are an enum.
pub(super) fn apply(row: &mut Row, call: RowCall) -> bool
    ensures answer { result ≡ is_some (row_next row.old call) }
    ensures row { row.new ≡ unwrap_or (row_next row.old call) row.old }
{
    match (*row, call) {
        (Row::Empty, RowCall::Hold(circuit)) => *row = Row::Held(circuit),
        (Row::Held(circuit), RowCall::Confirm) => *row = Row::Booked(circuit),
        (Row::Held(_), RowCall::LetGo) | (Row::Booked(_), RowCall::End) => *row = Row::Empty,
        _ => return false,
    }
    true
}

// The place of the row of a ticket, if there is one.
pub(super) fn row_of(rows: &[Row; 64], ticket: u32) -> Option<usize>
    ensures { result ≡ position (has_ticket ticket) rows.now }
{
    rows.iter().position(|row| row.has_ticket(ticket))
}

// The place of the first empty row; none where all 64 rows are in use.
pub(super) fn empty_row(rows: &[Row; 64]) -> Option<usize>
    ensures { result ≡ position (λ row. not (in_use row)) rows.now }
{
    rows.iter().position(|row| row.is_empty())
}
