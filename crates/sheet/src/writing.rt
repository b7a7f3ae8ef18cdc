// How a sheet is written: its head, and then arc by arc.
ghost use Rattle.std.specs.Prelude.{◌≡◌, ◌+◌, ◌<◌, ◌≤◌, true, ◌++◌, length, take, drop, is_ok, Ok};
ghost use Rattle.network.specs.Checks.{outcome};
ghost use Rattle.network.specs.Net.{arc_count};
ghost use Rattle.sheet.specs.Layout.{sheet_size, write_answer, write_told, buffer_after, read_answer};
ghost use Rattle.sheet.specs.Steps.{head_bytes, word_bytes, arcs_bytes};

use super::refusals::WriteRefusal;
use super::sheet::size_of_sheet;
use super::words::ArcWord;
use network::Network;

// Writes a head into the first two bytes.
fn put_head(buffer: &mut [u8], sites: u8, arcs: u16)
    requires room { 2 ≤ length buffer.old }
    requires few_sites { sites ≤ 64 }
    requires few_arcs { arcs ≤ 256 }
    ensures { buffer.new ≡ head_bytes sites arcs ++ drop 2 buffer.old }
{
    let head = u16::from(sites) * 512 + arcs;
    buffer[..2].copy_from_slice(&head.to_be_bytes());
}

// Writes a word into the eight bytes from a place on.
fn put_word(buffer: &mut [u8], at: usize, word: ArcWord)
    requires { at + 8 ≤ length buffer.old }
    ensures { buffer.new ≡ take at buffer.old ++ (word_bytes word.0 ++ drop (at + 8) buffer.old) }
{
    buffer[at..at + 8].copy_from_slice(&word.to_be_bytes());
}

// Writes every arc, the first after the first two bytes. By number: no proof learns what was written into chunks that a
// buffer lends one after another.
fn put_arcs<N: Network>(network: &N, buffer: &mut [u8])
    requires { sheet_size (arc_count (N.Network.meaning network.now)) ≤ length buffer.old }
    ensures { buffer.new ≡ take 2 buffer.old ++ (arcs_bytes (N.Network.meaning network.now).arcs ++ drop (sheet_size (arc_count (N.Network.meaning network.now))) buffer.old) }
{
    for number in 0..network.arcs() {
        let arc = network.arc(u32::from(number)).unwrap();
        put_word(buffer, size_of_sheet(u32::from(number)), ArcWord::from(arc));
    }
}

// Writes the sheet of a network into the first bytes of a buffer, and answers how many bytes it has. Refused with 7, and the
// buffer untouched, where it is too short. What was written reads back as a network of equal meaning.
pub fn write_sheet<N: Network>(network: &N, buffer: &mut [u8]) -> Result<usize, WriteRefusal>
    ensures answer { outcome (λ x. x) write_told result ≡ write_answer (N.Network.meaning network.now) buffer.old }
    ensures buffer { buffer.new ≡ buffer_after (N.Network.meaning network.now) buffer.old }
    ensures reads_back { is_ok result ≡ true → read_answer (take (sheet_size (arc_count (N.Network.meaning network.now))) buffer.new) ≡ Ok (N.Network.meaning network.now) }
{
    let arcs = network.arcs();
    let size = size_of_sheet(u32::from(arcs));
    if buffer.len() < size {
        return Err(WriteRefusal::BufferTooShort);
    }
    put_head(buffer, network.sites(), arcs);
    put_arcs(network, buffer);
    Ok(size)
}
