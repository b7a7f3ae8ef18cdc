// Tables as text: a line 'sites N', then a line 'arc FROM TO WEIGHT DELAY JITTER CHARGE CAPACITY' for each arc. What follows
// a '#' is a comment, and blank lines are passed over.
use super::failure::{Failure, Fault};
use super::table::Table;
use orders::text::words_of;
use std::alloc::Global;
use std::str::SplitWhitespace;

// The figures that the rest of a line holds: as many as asked for, and nothing after them.
fn read_figures<const N: usize>(mut words: SplitWhitespace<'_>) -> Result<[u32; N], Fault> {
    let mut figures = [0; N];
    for figure in &mut figures {
        let word = words.next().ok_or(Fault::MissingFigure)?;
        *figure = word.parse().map_err(|_| Fault::NotANumber)?;
    }
    if words.next().is_some() {
        return Err(Fault::TooManyWords);
    }
    Ok(figures)
}

// Takes one line into the table that the lines before it made.
fn take_line(heap: Global, table: &mut Option<Table>, line: &str) -> Result<(), Fault> {
    let mut words = words_of(line);
    match words.next() {
        None => Ok(()),
        Some("sites") => {
            let [sites] = read_figures::<1>(words)?;
            if table.is_some() {
                return Err(Fault::SitesTwice);
            }
            *table = Some(Table::new(heap, sites)?);
            Ok(())
        }
        Some("arc") => {
            let figures = read_figures(words)?;
            table.as_mut().ok_or(Fault::ArcBeforeSites)?.add(figures)
        }
        Some(_) => Err(Fault::UnknownWord),
    }
}

// The table that a text gives, or the first line that is at fault.
pub fn read_table(heap: Global, text: &str) -> Result<Table, Failure> {
    let mut table = None;
    for (number, line) in (1..).zip(text.lines()) {
        take_line(heap, &mut table, line).map_err(|fault| Failure::Malformed {
            line: number,
            fault,
        })?;
    }
    table.ok_or(Failure::NoSites)
}
