// The desk: one client's calls on a ledger, answered one after another, and the law over any succession of them.
#![tactic(auto)]

ghost use Rattle.desk.specs.Faithful.{TheTallyIsFaithful};

pub mod requests;
pub mod serving;

use length::Kind;
pub use requests::{Memory, Reply, Request};
pub use serving::{Client, serve};

// Says that the tally keeps the law of a ledger, whatever the calls, over any network and in any family of kinds of length.
pub fn tally_stands<K: Kind>(kind: &K) -> u8
    ensures { TheTallyIsFaithful K.Kind.model }
{
    0
}
