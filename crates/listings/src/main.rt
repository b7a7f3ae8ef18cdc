// Carries out many orders on many networks, as they stand on standard input, so that what is said can be compared with the
// answers of another lister. A line 'network HEX' opens a new ledger over the sheet whose bytes follow; the lines after it
// are orders.
#![tactic(auto)]

mod failure;
mod hex;

use failure::ListingsFailure;
use hex::read_bytes;
use network::Network;
use orders::ending::exit_code;
use orders::{NumberedOrder, carry_out, read_line};
use sheet::Sheet;
use std::io;
use std::process::ExitCode;

// A network, and the orders on it so far.
#[derive(Drop)]
struct Case {
    sheet: Sheet,
    orders: Vec<NumberedOrder>,
}

// Opens a case, and says which network it is over.
fn open_case(rt: &HostRuntime, line: usize, word: &str) -> Result<Case, ListingsFailure> {
    let bytes = read_bytes(rt.alloc(), word)?;
    let sheet = Sheet::read(bytes.as_slice())?;
    println!(rt;
        "{line}: network of {} sites, {} arcs",
        sheet.sites(),
        sheet.arcs()
    )?;
    Ok(Case {
        sheet,
        orders: Vec::new(rt.alloc()),
    })
}

// Carries out the orders of a case, if there is one.
fn close_case(rt: &HostRuntime, case: Option<Case>) -> Result<(), ListingsFailure> {
    if let Some(Case { sheet, orders }) = case {
        carry_out(rt, sheet, orders)?;
    }
    Ok(())
}

// Takes every line of a text in turn.
fn list_all(rt: &HostRuntime, text: &str) -> Result<(), ListingsFailure> {
    let mut case: Option<Case> = None;
    for (number, line) in (1..).zip(text.lines()) {
        if let Some(word) = line.strip_prefix("network ") {
            close_case(rt, case)?;
            case = Some(open_case(rt, number, word.trim())?);
        } else if let Some(order) = read_line(rt.alloc(), number, line) {
            let case = case.as_mut().ok_or(ListingsFailure::NoNetwork)?;
            case.orders.push(order)?;
        }
    }
    close_case(rt, case)
}

// Takes every line of the standard input.
fn list_input(rt: &HostRuntime) -> Result<(), ListingsFailure> {
    let text = io::read_to_string(rt.alloc(), rt.stdin())?;
    list_all(rt, text.as_str())
}

fn main(rt: HostRuntime) -> ExitCode {
    exit_code(&rt, list_input(&rt))
}
