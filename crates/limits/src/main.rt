// Tries the limits of networks, sheets, rows of arcs and least totals, and prints what the library answers; the answers that
// the documents promise stand in the file `stdout`.
#![tactic(auto)]

mod answers;
mod arcs;
mod rings;
mod sheets;
mod totals;

use std::io;

fn main(rt: HostRuntime) -> io::Result<()> {
    rings::try_rings(&rt)?;
    sheets::try_heads(&rt)?;
    sheets::try_arcs(&rt)?;
    sheets::try_fields(&rt)?;
    sheets::try_buffers(&rt)?;
    arcs::try_rows(&rt)?;
    totals::try_totals(&rt)
}
