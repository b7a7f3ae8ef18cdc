// The program: takes a command from its arguments, carries it out over the library, and says what it did.
#![tactic(auto)]

mod commands;
mod entries;
mod failure;
mod parsing;
mod table;
mod usage;

use commands::carry_out;
use orders::ending::exit_code;
use std::process::ExitCode;

fn main(rt: HostRuntime) -> ExitCode {
    exit_code(&rt, carry_out(&rt))
}
