// Enquiries and a ledger at their limits: routes of 15 and 16 arcs, every limit on what an enquiry asks, 64 and 65 rows.
use network::{Figures, RingPlan};
use orders::{OrdersFailure, carry_out, read_line};
use std::io;
use std::iter::repeat_n;

// Orders on a ring of 64 sites, of which arc 2i runs from site i to the next, and arc 2i + 1 back.
const ORDERS: &str = "\
enquire 0 15 width 1 delay 4095 jitter 4095 charge 4095 hops 15 wanted 32 by weight
enquire 0 15 width 255 delay 30 jitter 45 charge 60 hops 15 wanted 1 by hops notebook 16
enquire 0 15 width 1 delay 30 jitter 45 charge 60 hops 15 wanted 1 by weight notebook 15
enquire 0 15 width 1 delay 29 jitter 45 charge 60 hops 15 wanted 1 by weight
enquire 0 15 width 1 delay 30 jitter 44 charge 60 hops 15 wanted 1 by weight
enquire 0 15 width 1 delay 30 jitter 45 charge 59 hops 15 wanted 1 by weight
enquire 0 15 width 1 delay 30 jitter 45 charge 60 hops 14 wanted 1 by weight
enquire 0 16 width 1 delay 4095 jitter 4095 charge 4095 hops 15 wanted 1 by weight
enquire 0 15 width 1 delay 4095 jitter 4095 charge 4095 hops 16 wanted 1 by weight
enquire 0 15 width 1 delay 4095 jitter 4095 charge 4095 hops 0 wanted 1 by weight
enquire 0 15 width 1 delay 4095 jitter 4095 charge 4095 hops 15 wanted 33 by weight
enquire 0 15 width 1 delay 4095 jitter 4095 charge 4095 hops 15 wanted 0 by weight
enquire 63 0 width 1 delay 4095 jitter 4095 charge 4095 hops 1 wanted 1 by weight
enquire 64 0 width 1 delay 4095 jitter 4095 charge 4095 hops 1 wanted 1 by weight
enquire 63 63 width 1 delay 4095 jitter 4095 charge 4095 hops 1 wanted 1 by weight
enquire 0 15 width 0 delay 4095 jitter 4095 charge 4095 hops 15 wanted 1 by weight
enquire 0 15 width 256 delay 4095 jitter 4095 charge 4095 hops 15 wanted 1 by weight
hold 1 0-2-4-6-8-10-12-14-16-18-20-22-24-26-28
hold 1 0-2-4-6-8-10-12-14-16-18-20-22-24-26-28-30
hold 1 127
hold 1 128
hold 255 0
hold 254 0
free 0
end 1
let-go 1
let-go 2
let-go 3
";

// So many holds follow: the last of them finds no empty row.
const HOLDS: usize = 65;

const HOLD: &str = "hold 3 0";

// And then these.
const LAST: [&str; 3] = ["let-go 4", HOLD, "free 0"];

pub fn try_circuits(rt: &HostRuntime) -> Result<(), OrdersFailure> {
    let figures = Figures {
        weight: 1,
        delay: 2,
        jitter: 3,
        charge: 4,
        capacity: 255,
    };
    let plan = RingPlan::new(64, figures).map_err(|_| io::Error::other("no ring plan"))?;
    let heap = rt.alloc();
    let lines = ORDERS.lines().chain(repeat_n(HOLD, HOLDS)).chain(LAST);
    let orders = (1..)
        .zip(lines)
        .filter_map(|(number, line)| read_line(heap, number, line))
        .collect(heap)?;
    carry_out(rt, plan, orders)
}
