// All arcs of a network in a table of plain records, each asked for once.
ghost use Rattle.std.specs.Prelude.{◌≡◌, ◌++◌, drop};
ghost use Rattle.network.specs.Net.{arc_count};

use super::arc::{Arc, Network};

// Writes the arcs of a network, in the order of their numbers, into the first places of a table that has room for as many as
// a network may have, and answers how many there are.
pub fn list_arcs<N: Network>(network: &N, table: &mut [Arc; 256]) -> usize
    ensures count { result ≡ arc_count (N.Network.meaning network.now) }
    ensures table { table.new ≡ (N.Network.meaning network.now).arcs ++ drop (arc_count (N.Network.meaning network.now)) table.old }
{
    let count = usize::from(network.arcs());
    for (number, place) in table[..count].iter_mut().enumerate() {
        if let Some(arc) = network.arc(number as u32) {
            *place = arc;
        }
    }
    count
}
