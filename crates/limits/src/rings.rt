// Ring plans at both ends of every limit.
use super::answers::{Refused, unexpected};
use network::{Figures, Network, RingPlan};
use std::io;

// Prints what a plan of so many sites and these figures answers.
fn show(rt: &HostRuntime, sites: u32, figures: Figures) -> io::Result<()> {
    let Figures {
        weight,
        delay,
        jitter,
        charge,
        capacity,
    } = figures;
    print!(rt; "ring {sites}: {weight} {delay} {jitter} {charge} {capacity}: ")?;
    match RingPlan::new(sites, figures) {
        Ok(plan) => println!(rt; "{} arcs", plan.arcs()),
        Err(refusal) => rt.println(Refused::new(&refusal)),
    }
}

pub fn try_rings(rt: &HostRuntime) -> io::Result<()> {
    let most = Figures {
        weight: 4095,
        delay: 4095,
        jitter: 1023,
        charge: 1023,
        capacity: 255,
    };
    for sites in [0, 2, 3, 64, 65, 259, 4294967295] {
        show(rt, sites, most)?;
    }
    show(rt, 3, Figures::default())?;
    let over = [
        Figures {
            weight: 4096,
            ..most
        },
        Figures {
            delay: 4096,
            ..most
        },
        Figures {
            jitter: 1024,
            ..most
        },
        Figures {
            charge: 1024,
            ..most
        },
        Figures {
            capacity: 256,
            ..most
        },
    ];
    for figures in over {
        show(rt, 3, figures)?;
    }
    show(
        rt,
        65,
        Figures {
            weight: 4294967295,
            ..most
        },
    )?;
    show_arcs(rt, 64, most)
}

// Prints the ends of a ring's last arcs and what follows them.
fn show_arcs(rt: &HostRuntime, sites: u32, figures: Figures) -> io::Result<()> {
    let plan = RingPlan::new(sites, figures).map_err(unexpected)?;
    for number in [0, 1, 126, 127, 128, 4294967295] {
        match plan.arc(number) {
            Some(arc) => println!(rt; "ring arc {number}: {} to {}", arc.from, arc.to)?,
            None => println!(rt; "ring arc {number}: none")?,
        }
    }
    Ok(())
}
