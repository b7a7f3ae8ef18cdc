// The sheet as a value. How it is read is in the module `reading`, its questions in `questions`.
ghost use Rattle.std.specs.Prelude.{◌≡◌, ◌≤◌, true, is_ok};
ghost use Rattle.network.specs.Net.{arc_count};
ghost use Rattle.sheet.specs.Layout.{kept_bytes, net_in, read_answer, sheet_size, sites_in};

// The most bytes that a sheet has: two, and eight for each of 256 arcs.
pub(super) const MOST_BYTES: usize = 2050;

// How many bytes a sheet of so many arcs has.
pub fn size_of_sheet(arcs: u32) -> usize
    ensures { result ≡ sheet_size arcs }
{
    2 + 8 * arcs as usize
}

// A network read from bytes, of which it keeps a copy; the numbers in the head are kept beside them.
// A copied value with no heap memory: its bytes lie in an array with room for any sheet, and `arcs` tells how many they are.
#[derive(Clone, Copy)]
pub struct Sheet {
    pub(super) bytes: [u8; MOST_BYTES],
    pub(super) sites: u8,
    pub(super) arcs: u16,
    ghost few_arcs: { arcs ≤ 256 },
    ghost sound: { is_ok (read_answer (kept_bytes arcs bytes)) ≡ true },
    ghost sites_read: { sites ≡ sites_in (kept_bytes arcs bytes) },
    ghost arcs_counted: { arcs ≡ arc_count (net_in (kept_bytes arcs bytes)) },
}
