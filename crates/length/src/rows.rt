// The length of a given row of arcs.
ghost use Rattle.std.specs.Prelude.{◌≡◌};
ghost use Rattle.network.specs.Checks.{outcome};
ghost use Rattle.length.specs.Walks.{row_answer, row_told};

use super::kind::Kind;
use super::refusals::RowRefusal;
use network::Network;

// The length of a row of arcs in any kind: their lengths joined in order. Refused with 31 where there are fewer than 1 or
// more than 15, then with 32 where one is no arc of the network. The arcs need not meet.
#[tactic(auto, using(crate::proofs::Walks::row_no_arc))]
pub fn row_length<N: Network, K: Kind>(
    network: &N,
    kind: &K,
    arcs: &[u32],
) -> Result<K::Length, RowRefusal>
    ensures { outcome (λ x. x) row_told result ≡ row_answer (K.Kind.model kind.now) (N.Network.meaning network.now) arcs.now }
{
    if arcs.len() < 1 || arcs.len() > 15 {
        return Err(RowRefusal::ArcsOutside);
    }
    let mut total = kind.empty_length();
    for number in arcs {
        let arc = network.arc(*number).ok_or(RowRefusal::NoSuchArc)?;
        total = kind.join(total, kind.arc_length(arc));
    }
    Ok(total)
}
