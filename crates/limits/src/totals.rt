// Least totals: every refusal in its order, the rest of the table, and widths that no arc has.
use super::answers::{Refused, unexpected};
use length::{StandardKind, least_totals};
use network::{Figures, Headroom, Network, RingPlan};
use std::io;

// Works the totals out into a part of a table of five places that hold 7, and prints the answer and all five.
fn show<N: Network>(
    rt: &HostRuntime,
    network: &N,
    kind: StandardKind,
    destination: u32,
    width: u32,
    places: usize,
) -> io::Result<()> {
    let mut table = [Some(7); 5];
    let part = table.get_mut(..places).ok_or_else(|| io::Error::other(
        "a table has at most five places here",
    ))?;
    print!(rt; "totals to {destination} at width {width} in {places} places: ")?;
    match least_totals(network, &kind, destination, width, part) {
        Ok(()) => print!(rt; "done,")?,
        Err(refusal) => print!(rt; "{},", Refused::new(&refusal))?,
    }
    for place in table {
        match place {
            Some(total) => print!(rt; " {total}")?,
            None => print!(rt; " -")?,
        }
    }
    println!(rt; "")?;
    Ok(())
}

pub fn try_totals(rt: &HostRuntime) -> io::Result<()> {
    let figures = Figures {
        weight: 4095,
        delay: 0,
        jitter: 3,
        charge: 4,
        capacity: 255,
    };
    let plan = RingPlan::new(4, figures).map_err(unexpected)?;
    show(rt, &plan, StandardKind::Weight, 3, 1, 4)?;
    show(rt, &plan, StandardKind::Weight, 3, 1, 5)?;
    show(rt, &plan, StandardKind::Delay, 0, 255, 5)?;
    show(rt, &plan, StandardKind::Hops, 1, 255, 5)?;
    show(rt, &plan, StandardKind::Width, 1, 255, 5)?;
    show(rt, &plan, StandardKind::Jitter, 1, 256, 5)?;
    show(rt, &plan, StandardKind::Width, 1, 4294967295, 5)?;
    show(rt, &plan, StandardKind::Weight, 4, 1, 5)?;
    show(rt, &plan, StandardKind::Weight, 4294967295, 0, 0)?;
    show(rt, &plan, StandardKind::Weight, 0, 0, 0)?;
    show(rt, &plan, StandardKind::Weight, 0, 1, 3)?;
    let headroom = Headroom::new(plan, 250);
    show(rt, &headroom, StandardKind::Width, 1, 5, 5)?;
    show(rt, &headroom, StandardKind::Width, 1, 6, 5)?;
    let all = Headroom::new(headroom, 4294967295);
    show(rt, &all, StandardKind::Charge, 2, 1, 5)
}
