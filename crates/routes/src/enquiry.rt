// What an enquiry asks, what it lists and what it answers.

// The most that a route's totals may come to.
#[derive(Clone, Copy, PartialEq, Eq, Debug)]
pub struct Limits {
    pub delay: u32,
    pub jitter: u32,
    pub charge: u32,
    pub hops: u32,
}

// What is asked. Two enquiries ask alike if they are equal.
#[derive(Clone, Copy)]
pub struct Enquiry<K> {
    pub source: u32,
    pub destination: u32,
    pub width: u32,
    pub limits: Limits,
    // how many routes are wanted
    pub wanted: u32,
    pub kind: K,
}

// One row of a caller's list: a route. `arcs` has the arc numbers in its first `count` places, and 0 in the others: plain
// numbers, since a caller reads them as they lie.
#[derive(Clone, Copy, Default, PartialEq, Eq, Debug)]
pub struct RouteRow {
    pub count: u32,
    pub arcs: [u32; 15],
    pub delay: u32,
    pub jitter: u32,
    pub charge: u32,
}

// What an enquiry answers: how many routes it listed, and how many lines of a notebook the work takes.
#[derive(Clone, Copy, PartialEq, Eq, Debug)]
pub struct Found {
    pub routes: u32,
    pub lines: u32,
}
