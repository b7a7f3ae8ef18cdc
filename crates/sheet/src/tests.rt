// Tests: a sheet that is read and written again, refusals in their order, and the bit reader.
use super::reader::{BitReader, Field};
use super::{ReadRefusal, Sheet, WriteRefusal, write_sheet};
use network::{Arc, Network};
use std::test::Fail;

// A sheet of 4 sites and one arc.
const ONE_ARC: [u8; 10] = [0x08, 0x01, 0x00, 0x10, 0x02, 0x00, 0x30, 0x04, 0x05, 0x0A];

fn refused(bytes: &[u8]) -> Option<ReadRefusal> {
    Sheet::read(bytes).err()
}

#[test]
fn one_arc_is_read(rt: HostRuntime) -> Result<(), Fail> {
    let sheet = Sheet::read(&ONE_ARC)?;
    assert_eq!(rt; sheet.sites(), 4);
    assert_eq!(rt; sheet.arcs(), 1);
    let arc = Arc {
        from: 0,
        to: 1,
        weight: 2,
        delay: 3,
        jitter: 1,
        charge: 5,
        capacity: 10,
    };
    assert_eq!(rt; sheet.arc(0), Some(arc));
    assert_eq!(rt; sheet.arc(1), None);
    Ok(())
}

#[test]
fn a_read_sheet_is_written(rt: HostRuntime) -> Result<(), Fail> {
    let sheet = Sheet::read(&ONE_ARC)?;
    let mut buffer = [0xFF; 12];
    assert_eq!(rt; write_sheet(&sheet, &mut buffer), Ok(10));
    assert_eq!(rt;
        buffer,
        [
            0x08, 0x01, 0x00, 0x10, 0x02, 0x00, 0x30, 0x04, 0x05, 0x0A, 0xFF, 0xFF,
        ]
    );
    let mut short = [0xFF; 9];
    assert_eq!(rt;
        write_sheet(&sheet, &mut short),
        Err(WriteRefusal::BufferTooShort)
    );
    assert_eq!(rt; short, [0xFF; 9]);
    Ok(())
}

#[test]
fn the_first_failed_check_is_told(rt: HostRuntime) {
    assert_eq!(rt; refused(&[0x02]), Some(ReadRefusal::NoHead));
    // one site, 257 arcs
    assert_eq!(rt; refused(&[0x03, 0x01]), Some(ReadRefusal::SitesOutside));
    // 257 arcs, and bytes for none
    assert_eq!(rt; refused(&[0x09, 0x01]), Some(ReadRefusal::TooManyArcs));
    // six arcs, and bytes for one
    assert_eq!(rt;
        refused(&[0x08, 0x06, 0, 0x10, 0, 0, 0, 0, 0, 0]),
        Some(ReadRefusal::WrongByteCount)
    );
    // one byte more than one arc has
    assert_eq!(rt;
        refused(&[0x08, 0x01, 0, 0x10, 0, 0, 0, 0, 0, 0, 0]),
        Some(ReadRefusal::WrongByteCount)
    );
    // from 63 to 63
    assert_eq!(rt;
        refused(&[0x08, 0x01, 0xFF, 0xF0, 0, 0, 0, 0, 0, 0]),
        Some(ReadRefusal::NoSuchSite { at: 16 })
    );
    // from 0 to 63
    assert_eq!(rt;
        refused(&[0x08, 0x01, 0x03, 0xF0, 0, 0, 0, 0, 0, 0]),
        Some(ReadRefusal::NoSuchSite { at: 22 })
    );
    // from 0 to 0
    assert_eq!(rt;
        refused(&[0x08, 0x01, 0, 0, 0, 0, 0, 0, 0, 0]),
        Some(ReadRefusal::SameSite { at: 22 })
    );
}

#[test]
fn fields_come_with_their_places(rt: HostRuntime) {
    let mut reader = BitReader::new(&ONE_ARC);
    assert_eq!(rt;
        reader.field(7),
        Some(Field {
            value: 4,
            position: 0,
        })
    );
    assert_eq!(rt;
        reader.field(9),
        Some(Field {
            value: 1,
            position: 7,
        })
    );
    assert_eq!(rt; reader.field(33), None);
    assert!(rt; reader.skip(52));
    assert_eq!(rt; reader.field(13), None);
    assert_eq!(rt;
        reader.field(12),
        Some(Field {
            value: 0x50A,
            position: 68,
        })
    );
}
