// The checks of a route, each over all of its arcs.
ghost use Rattle.std.specs.Prelude.{◌≡◌, ◌<◌, not, nat_lt};
ghost use Rattle.network.specs.Lists.{all_of, any_of, distinct};
ghost use Rattle.network.specs.Net.{arc_at, arc_count};
ghost use Rattle.ledger.specs.Tally.{is_joined, sites_met};

use network::{Arc, Network};

// The arc of a number that has one.
fn arc_at<N: Network>(network: &N, number: u32) -> Arc
    ensures is { result ≡ arc_at (N.Network.meaning network.now) number }
    ensures from { result.from < 64 }
    ensures to { result.to < 64 }
{
    network.arc(number).unwrap_or_default()
}

// Whether each number is that of an arc.
pub(super) fn all_exist<N: Network>(network: &N, arcs: &[u32]) -> bool
    ensures { result ≡ all_of (λ i. nat_lt i (arc_count (N.Network.meaning network.now))) arcs.now }
{
    let count = u32::from(network.arcs());
    arcs.iter().all(|number| *number < count)
}

// Whether each arc begins where the one before it ends.
pub(super) fn are_joined<N: Network>(network: &N, arcs: &[u32]) -> bool
    ensures { result ≡ is_joined (N.Network.meaning network.now) arcs.now }
{
    arcs.windows(2).all(|pair| arc_at(network, pair[0]).to == arc_at(network, pair[1]).from)
}

// Whether the route meets no site twice.
pub(super) fn sites_apart<N: Network>(network: &N, arcs: &[u32]) -> bool
    ensures { result ≡ distinct (sites_met (N.Network.meaning network.now) arcs.now) }
{
    let [first, ..] = arcs else {
        return true;
    };
    let mut met = [false; 64];
    met[usize::from(arc_at(network, *first).from)] = true;
    for number in arcs {
        let site = usize::from(arc_at(network, *number).to);
        if met[site] {
            return false;
        }
        met[site] = true;
    }
    true
}

// Whether each arc has capacity for a width.
pub(super) fn have_room<N: Network>(network: &N, arcs: &[u32], width: u8) -> bool
    ensures { result ≡ not (any_of (λ i. nat_lt (arc_at (N.Network.meaning network.now) i).capacity width) arcs.now) }
{
    !arcs
        .iter()
        .any(|number| arc_at(network, *number).capacity < width)
}
