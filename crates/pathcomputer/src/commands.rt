// The commands: each reads its files and numbers, calls the library, writes its file or prints, and says what it did.
use super::failure::Failure;
use super::parsing::read_table;
use super::usage::USAGE;
use length::{StandardKind, least_totals};
use network::{Figures, Headroom, Network, RingPlan};
use orders::{carry_out as carry_out_orders, read_orders};
use sheet::{Sheet, size_of_sheet, write_sheet};
use std::{env, fs};

// Carries out the command that the program's arguments give.
pub fn carry_out(rt: &HostRuntime) -> Result<(), Failure> {
    let heap = rt.alloc();
    let words: Vec<String> = env::args(rt)?.collect(heap)?;
    let words: Vec<&str> = words.iter().map(|word| word.as_str()).collect(heap)?;
    match words.as_slice() {
        [] | [_] => {
            print!(rt; "{USAGE}")?;
            Ok(())
        }
        [_, "encode", table, sheet] => encode(rt, table, sheet),
        [_, "decode", sheet] => decode(rt, sheet),
        [_, "ring", numbers @ .., sheet] => ring(rt, numbers, sheet),
        [_, "totals", sheet, destination, width] => {
            totals(rt, sheet, destination.parse()?, width.parse()?)
        }
        [_, "orders", sheet, text] => orders(rt, sheet, text, None),
        [_, "orders", sheet, text, "--headroom", reserve] => {
            orders(rt, sheet, text, Some(reserve.parse()?))
        }
        _ => Err(Failure::Usage),
    }
}

// The sheet in a file.
fn read_sheet(rt: &HostRuntime, path: &str) -> Result<Sheet, Failure> {
    let bytes = fs::read(rt, path)?;
    Ok(Sheet::read(bytes.as_slice())?)
}

// Writes the sheet of a network to a file, and says so.
fn save<N: Network>(rt: &HostRuntime, network: &N, path: &str) -> Result<(), Failure> {
    let arcs = network.arcs();
    let mut buffer = vec![in rt.alloc(); 0u8; size_of_sheet(u32::from(arcs))]?;
    let size = write_sheet(network, buffer.as_mut_slice())?;
    fs::write(rt, path, buffer.as_slice())?;
    println!(rt;
        "wrote {path}: {} sites, {arcs} arcs, {size} bytes",
        network.sites()
    )?;
    Ok(())
}

fn encode(rt: &HostRuntime, table: &str, path: &str) -> Result<(), Failure> {
    let text = fs::read_to_string(rt, table)?;
    let network = read_table(rt.alloc(), text.as_str())?;
    save(rt, &network, path)
}

// Prints a sheet as a table.
fn decode(rt: &HostRuntime, path: &str) -> Result<(), Failure> {
    let sheet = read_sheet(rt, path)?;
    let sites = sheet.sites();
    let arcs = sheet.arcs();
    println!(rt; "sites {sites}")?;
    for arc in (0..u32::from(arcs)).filter_map(|number| sheet.arc(number)) {
        println!(rt;
            "arc {} {} {} {} {} {} {}",
            arc.from, arc.to, arc.weight, arc.delay, arc.jitter, arc.charge, arc.capacity
        )?;
    }
    println!(rt;
        "# read {path}: {sites} sites, {arcs} arcs, {} bytes",
        size_of_sheet(u32::from(arcs))
    )?;
    Ok(())
}

// Writes the sheet of the ring plan that six numbers give.
fn ring(rt: &HostRuntime, numbers: &[&str], path: &str) -> Result<(), Failure> {
    let [sites, weight, delay, jitter, charge, capacity] = numbers else {
        return Err(Failure::Usage);
    };
    let sites = sites.parse()?;
    let figures = Figures {
        weight: weight.parse()?,
        delay: delay.parse()?,
        jitter: jitter.parse()?,
        charge: charge.parse()?,
        capacity: capacity.parse()?,
    };
    save(rt, &RingPlan::new(sites, figures)?, path)
}

// The kinds of length, in the order of the columns.
const KINDS: [StandardKind; 6] = [
    StandardKind::Weight,
    StandardKind::Delay,
    StandardKind::Jitter,
    StandardKind::Charge,
    StandardKind::Hops,
    StandardKind::Width,
];

// Prints the least totals to a destination at a width, site by site.
fn totals(rt: &HostRuntime, path: &str, destination: u32, width: u32) -> Result<(), Failure> {
    let sheet = read_sheet(rt, path)?;
    let mut columns = [[None; 64]; 6];
    for (column, kind) in columns.iter_mut().zip(&KINDS) {
        least_totals(&sheet, kind, destination, width, column)?;
    }
    println!(rt; "site  weight   delay  jitter  charge    hops   width")?;
    let sites = sheet.sites();
    // by site, since each column is a table by site
    for site in 0..sites {
        print_row(rt, site, &columns)?;
    }
    let reached = columns[0].iter().flatten().count();
    println!(rt; "{reached} of {sites} sites have a way to site {destination} at width {width}")?;
    Ok(())
}

// Prints the least totals of one site.
fn print_row(rt: &HostRuntime, site: u8, columns: &[[Option<u32>; 64]; 6]) -> Result<(), Failure> {
    print!(rt; "{site:>4}")?;
    for column in columns {
        match column.get(usize::from(site)) {
            Some(Some(total)) => print!(rt; " {total:>7}")?,
            _ => print!(rt; "       -")?,
        }
    }
    println!(rt; "")?;
    Ok(())
}

// Carries out the orders of a text on a new ledger over the network of a sheet, or over headroom on it.
fn orders(rt: &HostRuntime, path: &str, text: &str, reserve: Option<u32>) -> Result<(), Failure> {
    let sheet = read_sheet(rt, path)?;
    let text = fs::read_to_string(rt, text)?;
    let list = read_orders(rt.alloc(), text.as_str())?;
    match reserve {
        None => carry_out_orders(rt, sheet, list)?,
        Some(reserve) => carry_out_orders(rt, Headroom::new(sheet, reserve), list)?,
    }
    Ok(())
}
