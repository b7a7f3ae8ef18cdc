// A caller that spends its slip and hands its ledger on. One that forgets a slip, spends it twice or copies a ledger does not
// build.
ghost use Rattle.std.specs.Prelude.{◌≡◌};
ghost use Rattle.ledger.specs.Ledgers.{ledger_tally};
ghost use Rattle.ledger.specs.Slips.{handed_back, if_refused};
ghost use Rattle.ledger.specs.Tally.{slip_refusal};

use super::ledger::Ledger;
use super::slip::{Slip, SlipRefusal};
use network::{Network, RingPlan};

// Spends a slip, which is handed back where it is refused.
fn spend<N: Network>(slip: Slip<N>, ledger: &mut Ledger<N>) -> Result<(), SlipRefusal<N>>
    ensures { handed_back result ≡ if_refused (slip_refusal (ledger_tally ledger.old) slip.ticket) slip }
{
    slip.confirm(ledger)
}

// Hands a ledger on, over a network that can be copied.
fn hand_on(ledger: Ledger<RingPlan>) -> Ledger<RingPlan>
    ensures { result ≡ ledger }
{
    ledger
}
