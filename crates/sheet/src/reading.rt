// How a sheet is read: the checks in their order, and the numbers in its head.
ghost use Rattle.std.specs.Prelude.{◌≡◌, ◌+◌, ◌≤◌, true, length, take, is_some, is_ok, IfOk};
ghost use Rattle.std.specs.List.{range_with_len, flat_map};
ghost use Rattle.network.specs.Checks.{first_failed, outcome};
ghost use Rattle.sheet.specs.Fields.{bits_there};
ghost use Rattle.sheet.specs.Layout.{read_answer, read_told, sheet_of, sheet_size, kept_bytes, sites_in, arcs_in, arc_checks};
ghost use Rattle.sheet.specs.Sheets.{sheet_meaning};
ghost use Rattle.sheet.specs.Steps.{head_in, head_checks, end_checks, field_at, told};

use super::reader::{BitReader, Field};
use super::refusals::ReadRefusal;
use super::sheet::{MOST_BYTES, Sheet, size_of_sheet};

// The two numbers in a head.
#[derive(Clone, Copy)]
struct Head {
    sites: u32,
    arcs: u32,
}

// The head of the sheet, where the bytes hold one.
fn read_head(reader: &mut BitReader) -> Option<Head>
    requires { reader.old.position ≡ 0 }
    ensures head { result ≡ head_in reader.old.bytes.now }
    ensures position { is_some result ≡ true → reader.new.position ≡ 16 }
    ensures bytes { reader.new.bytes ≡ reader.old.bytes }
{
    Some(Head {
        sites: reader.field(7)?.value,
        arcs: reader.field(9)?.value,
    })
}

// Checks the numbers in the head of a sheet of so many bytes.
fn check_head(size: usize, head: Head) -> Result<(), ReadRefusal>
    ensures { told result ≡ first_failed (head_checks size head) }
{
    if !(2..=64).contains(&head.sites) {
        return Err(ReadRefusal::SitesOutside);
    }
    if head.arcs > 256 {
        return Err(ReadRefusal::TooManyArcs);
    }
    if size != size_of_sheet(head.arcs) {
        return Err(ReadRefusal::WrongByteCount);
    }
    Ok(())
}

// Checks the two ends of an arc.
fn check_ends(sites: u32, from: Field, to: Field) -> Result<(), ReadRefusal>
    ensures { told result ≡ first_failed (end_checks sites from to) }
{
    if from.value >= sites {
        return Err(ReadRefusal::NoSuchSite { at: from.position });
    }
    if to.value >= sites {
        return Err(ReadRefusal::NoSuchSite { at: to.position });
    }
    if to.value == from.value {
        return Err(ReadRefusal::SameSite { at: to.position });
    }
    Ok(())
}

// Checks the ends of the arc at the reader's position, and passes over the arc.
fn check_arc(reader: &mut BitReader, sites: u32) -> Result<(), ReadRefusal>
    requires { bits_there reader.old.bytes.now reader.old.position 64 ≡ true }
    ensures told { told result ≡ first_failed (end_checks sites (field_at reader.old.bytes.now reader.old.position 6) (field_at reader.old.bytes.now (reader.old.position + 6) 6)) }
    ensures position { reader.new.position ≡ reader.old.position + 64 }
    ensures bytes { reader.new.bytes ≡ reader.old.bytes }
{
    let from = reader.field(6).unwrap();
    let to = reader.field(6).unwrap();
    let _passed = reader.skip(52);
    check_ends(sites, from, to)
}

// Checks the ends of every arc.
fn check_arcs(reader: &mut BitReader, head: Head) -> Result<(), ReadRefusal>
    requires after_head { reader.old.position ≡ 16 }
    requires size { length reader.old.bytes.now ≡ sheet_size head.arcs }
    requires few { head.arcs ≤ 256 }
    requires sites { head.sites ≡ sites_in reader.old.bytes.now }
    ensures { told result ≡ first_failed (flat_map (arc_checks reader.old.bytes.now) (range_with_len 0 head.arcs)) }
{
    for _i in 0..head.arcs {
        check_arc(reader, head.sites)?;
    }
    Ok(())
}

// The bytes of a sheet in an array that has room for any.
fn copied(bytes: &[u8]) -> [u8; MOST_BYTES]
    requires { length bytes.now ≤ 2050 }
    ensures { take (length bytes.now) result ≡ bytes.now }
{
    let mut copy = [0; MOST_BYTES];
    copy[..bytes.len()].copy_from_slice(bytes);
    copy
}

// The sheet of bytes that passed the checks.
fn keep(bytes: &[u8], head: Head) -> Sheet
    requires passed { is_ok (read_answer bytes.now) ≡ true }
    requires sites { head.sites ≡ sites_in bytes.now }
    requires arcs { head.arcs ≡ arcs_in bytes.now }
    ensures { kept_bytes result.arcs result.bytes ≡ bytes.now }
{
    Sheet {
        bytes: copied(bytes),
        sites: head.sites as u8,
        arcs: head.arcs as u16,
    }
}

impl Sheet {
    // The network that the bytes mean, or the first check that fails. What was read writes back to the same bytes.
    pub fn read(bytes: &[u8]) -> Result<Sheet, ReadRefusal>
        ensures answer { outcome sheet_meaning read_told result ≡ read_answer bytes.now }
        ensures writes_back { IfOk result (λ s. sheet_of (sheet_meaning s) ≡ bytes.now) }
    {
        let mut reader = BitReader::new(bytes);
        let head = read_head(&mut reader).ok_or(ReadRefusal::NoHead)?;
        check_head(bytes.len(), head)?;
        check_arcs(&mut reader, head)?;
        Ok(keep(bytes, head))
    }
}
