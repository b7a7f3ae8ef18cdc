// The length of rows of arcs: 0, 1, 15 and 16 of them, and one that is not there.
use super::answers::{Refused, unexpected};
use length::{StandardKind, row_length};
use network::{Figures, RingPlan};
use std::io;

fn show(rt: &HostRuntime, plan: &RingPlan, kind: StandardKind, arcs: &[u32]) -> io::Result<()> {
    print!(rt; "row of {} arcs: ", arcs.len())?;
    match row_length(plan, &kind, arcs) {
        Ok(length) => println!(rt; "length {length}"),
        Err(refusal) => rt.println(Refused::new(&refusal)),
    }
}

pub fn try_rows(rt: &HostRuntime) -> io::Result<()> {
    let figures = Figures {
        weight: 4095,
        delay: 2,
        jitter: 3,
        charge: 4,
        capacity: 5,
    };
    let plan = RingPlan::new(3, figures).map_err(unexpected)?;
    show(rt, &plan, StandardKind::Weight, &[])?;
    show(rt, &plan, StandardKind::Weight, &[5])?;
    show(rt, &plan, StandardKind::Weight, &[0; 15])?;
    show(rt, &plan, StandardKind::Delay, &[1; 15])?;
    show(rt, &plan, StandardKind::Jitter, &[2; 15])?;
    show(rt, &plan, StandardKind::Charge, &[3; 15])?;
    show(rt, &plan, StandardKind::Hops, &[4; 15])?;
    show(rt, &plan, StandardKind::Width, &[5; 15])?;
    show(rt, &plan, StandardKind::Weight, &[0; 16])?;
    show(rt, &plan, StandardKind::Weight, &[6])?;
    show(rt, &plan, StandardKind::Weight, &[0, 5, 4294967295])?;
    show(rt, &plan, StandardKind::Weight, &[6; 16])?;
    Ok(())
}
