// Sheets: every refusal in its order, both ends of every field, and buffers too short, just long enough and longer.
use super::answers::{Refused, unexpected};
use network::{Figures, Network, RingPlan};
use sheet::{Sheet, write_sheet};
use std::io;

// Prints what reading answers.
fn show(rt: &HostRuntime, name: &str, bytes: &[u8]) -> io::Result<()> {
    print!(rt; "sheet {name}: ")?;
    match Sheet::read(bytes) {
        Ok(sheet) => println!(rt; "{} sites, {} arcs", sheet.sites(), sheet.arcs()),
        Err(refusal) => rt.println(Refused {
            refusal: &refusal,
            bit: refusal.position(),
        }),
    }
}

// The two bytes of a head.
fn head(sites: u16, arcs: u16) -> [u8; 2] {
    ((sites % 128) * 512 + arcs % 512).to_be_bytes()
}

// A sheet of so many sites and arcs, with every arc from site 0 to site 1, in so many of the first bytes of a larger buffer.
fn plain_sheet(sites: u16, arcs: u16) -> [u8; 2066] {
    let mut bytes = [0; 2066];
    bytes[..2].copy_from_slice(&head(sites, arcs));
    for byte in bytes[3..].iter_mut().step_by(8) {
        *byte = 16;
    }
    bytes
}

pub fn try_heads(rt: &HostRuntime) -> io::Result<()> {
    show(rt, "of no bytes", &[])?;
    show(rt, "of one byte", &[8])?;
    show(rt, "of 1 site", &head(1, 0))?;
    show(rt, "of 2 sites and no arcs", &head(2, 0))?;
    show(rt, "of 64 sites and no arcs", &head(64, 0))?;
    show(rt, "of 65 sites", &head(65, 0))?;
    show(rt, "of 127 sites and 511 arcs", &head(127, 511))?;
    show(
        rt,
        "of 64 sites and 256 arcs",
        &plain_sheet(64, 256)[0..2050],
    )?;
    show(
        rt,
        "of 64 sites and 257 arcs",
        &plain_sheet(64, 257)[0..2058],
    )?;
    show(rt, "of 1 site and 257 arcs", &plain_sheet(1, 257)[0..2058])?;
    show(rt, "of 257 arcs and too few bytes", &head(64, 257))?;
    show(rt, "one byte short", &plain_sheet(64, 256)[0..2049])?;
    show(rt, "one byte long", &plain_sheet(64, 256)[0..2051])?;
    show(rt, "one arc long", &plain_sheet(64, 255)[0..2050])
}

// A sheet of two arcs, the second between two given numbers.
fn second_arc(sites: u16, from: u8, to: u8) -> [u8; 18] {
    let mut bytes = [0; 18];
    bytes[..2].copy_from_slice(&head(sites, 2));
    bytes[3] = 16;
    bytes[10] = (from % 64) * 4 + (to % 64) / 16;
    bytes[11] = (to % 16) * 16;
    bytes
}

pub fn try_arcs(rt: &HostRuntime) -> io::Result<()> {
    show(
        rt,
        "with an arc from 3 to 2 of 4 sites",
        &second_arc(4, 3, 2),
    )?;
    show(rt, "with an arc from 4 of 4 sites", &second_arc(4, 4, 2))?;
    show(rt, "with an arc to 4 of 4 sites", &second_arc(4, 2, 4))?;
    show(
        rt,
        "with an arc from 63 to 63 of 4 sites",
        &second_arc(4, 63, 63),
    )?;
    show(rt, "with an arc from 2 to 2", &second_arc(4, 2, 2))?;
    show(
        rt,
        "with an arc from 63 to 62 of 64 sites",
        &second_arc(64, 63, 62),
    )?;
    show(
        rt,
        "with an arc from 2 to 2, cut short",
        &second_arc(4, 2, 2)[0..17],
    )?;
    let mut both = second_arc(2, 2, 2);
    both[3] = 0;
    show(rt, "with a fault in both arcs", &both)
}

// Writes a ring of three sites with the same figures on every arc, reads it back, and prints its last arc.
fn show_fields(rt: &HostRuntime, figures: Figures) -> io::Result<()> {
    let mut buffer = [0; 50];
    let plan = RingPlan::new(3, figures).map_err(unexpected)?;
    write_sheet(&plan, &mut buffer).map_err(unexpected)?;
    let sheet = Sheet::read(&buffer).map_err(unexpected)?;
    let arc = sheet.arc(5).ok_or_else(|| io::Error::other("no arc 5"))?;
    println!(rt;
        "field: arc 5 from {} to {}: {} {} {} {} {}",
        arc.from, arc.to, arc.weight, arc.delay, arc.jitter, arc.charge, arc.capacity
    )?;
    Ok(())
}

pub fn try_fields(rt: &HostRuntime) -> io::Result<()> {
    let least = Figures::default();
    let one_at_its_most = [
        least,
        Figures {
            weight: 4095,
            ..least
        },
        Figures {
            delay: 4095,
            ..least
        },
        Figures {
            jitter: 1023,
            ..least
        },
        Figures {
            charge: 1023,
            ..least
        },
        Figures {
            capacity: 255,
            ..least
        },
    ];
    for figures in one_at_its_most {
        show_fields(rt, figures)?;
    }
    Ok(())
}

// Writes a ring of three sites, 50 bytes, into a part of a buffer of 52 bytes 170, and prints what stands around its end.
fn show_buffer(rt: &HostRuntime, size: usize) -> io::Result<()> {
    let figures = Figures {
        weight: 1,
        delay: 2,
        jitter: 3,
        charge: 4,
        capacity: 5,
    };
    let plan = RingPlan::new(3, figures).map_err(unexpected)?;
    let mut buffer = [170; 52];
    let part = buffer
        .get_mut(..size)
        .ok_or_else(|| io::Error::other("a buffer has at most 52 bytes here"))?;
    print!(rt; "buffer of {size} bytes: ")?;
    match write_sheet(&plan, part) {
        Ok(written) => print!(rt; "{written} bytes written")?,
        Err(refusal) => rt.print(Refused::new(&refusal))?,
    }
    println!(rt;
        "; byte 0 is {}, byte 49 is {}, byte 50 is {}",
        buffer[0], buffer[49], buffer[50]
    )?;
    Ok(())
}

pub fn try_buffers(rt: &HostRuntime) -> io::Result<()> {
    for size in [0, 49, 50, 51] {
        show_buffer(rt, size)?;
    }
    Ok(())
}
