// Tries the limits of enquiries and ledgers, and prints what the library answers; the answers that the documents promise
// stand in the file `stdout`.
#![tactic(auto)]

mod circuits;

use orders::OrdersFailure;

fn main(rt: HostRuntime) -> Result<(), OrdersFailure> {
    circuits::try_circuits(&rt)
}
