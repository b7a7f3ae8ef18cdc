// Orders read from text: one on a line; what follows a '#' is a comment, and blank lines are passed over.
use super::order::{LINES, NumberedOrder, Order, OrderFault};
use super::text::words_of;
use length::StandardKind;
use routes::{Enquiry, Limits};
use std::alloc::{AllocError, Global};
use std::str::SplitWhitespace;

fn read_number(word: &str) -> Result<u32, OrderFault> {
    word.parse().map_err(|_| OrderFault::NotANumber)
}

fn next_word<'a>(words: &mut SplitWhitespace<'a>) -> Result<&'a str, OrderFault> {
    words.next().ok_or(OrderFault::MissingWord)
}

fn next_number(words: &mut SplitWhitespace<'_>) -> Result<u32, OrderFault> {
    read_number(next_word(words)?)
}

// Passes over a word that has to stand there.
fn expect_word(words: &mut SplitWhitespace<'_>, word: &str) -> Result<(), OrderFault> {
    if next_word(words)? == word {
        Ok(())
    } else {
        Err(OrderFault::WrongWord)
    }
}

// The number after a word that has to stand there.
fn number_after(words: &mut SplitWhitespace<'_>, label: &str) -> Result<u32, OrderFault> {
    expect_word(words, label)?;
    next_number(words)
}

// A match here and no `FromStr` in the crate of the kinds: the words are those of orders, of which that crate knows nothing.
fn read_kind(word: &str) -> Result<StandardKind, OrderFault> {
    Ok(match word {
        "weight" => StandardKind::Weight,
        "delay" => StandardKind::Delay,
        "jitter" => StandardKind::Jitter,
        "charge" => StandardKind::Charge,
        "hops" => StandardKind::Hops,
        "width" => StandardKind::Width,
        _ => return Err(OrderFault::UnknownKind),
    })
}

fn read_enquiry(words: &mut SplitWhitespace<'_>) -> Result<Enquiry<StandardKind>, OrderFault> {
    let source = next_number(words)?;
    let destination = next_number(words)?;
    let width = number_after(words, "width")?;
    let limits = Limits {
        delay: number_after(words, "delay")?,
        jitter: number_after(words, "jitter")?,
        charge: number_after(words, "charge")?,
        hops: number_after(words, "hops")?,
    };
    let wanted = number_after(words, "wanted")?;
    expect_word(words, "by")?;
    let kind = read_kind(next_word(words)?)?;
    Ok(Enquiry {
        source,
        destination,
        width,
        limits,
        wanted,
        kind,
    })
}

// How many lines the notebook has, at the end of an enquiry.
fn read_notebook(words: &mut SplitWhitespace<'_>) -> Result<u32, OrderFault> {
    match words.next() {
        None => Ok(LINES),
        Some("notebook") => next_number(words),
        Some(_) => Err(OrderFault::WrongWord),
    }
}

// Arc numbers with '-' between them.
fn read_arcs(heap: Global, word: &str) -> Result<Vec<u32>, OrderFault> {
    word.split('-').map(read_number).try_collect(heap)
}

fn read_order(
    heap: Global,
    name: &str,
    words: &mut SplitWhitespace<'_>,
) -> Result<Order, OrderFault> {
    Ok(match name {
        "enquire" => Order::Enquire(read_enquiry(words)?, read_notebook(words)?),
        "hold" => Order::Hold(next_number(words)?, read_arcs(heap, next_word(words)?)?),
        "confirm" => Order::Confirm(next_number(words)?),
        "let-go" => Order::LetGo(next_number(words)?),
        "end" => Order::End(next_number(words)?),
        "close" => Order::Close(next_number(words)?),
        "reopen" => Order::Reopen(next_number(words)?),
        "free" => Order::Free(next_number(words)?),
        _ => return Err(OrderFault::UnknownOrder),
    })
}

// An order and nothing after it.
fn read_whole(
    heap: Global,
    name: &str,
    words: &mut SplitWhitespace<'_>,
) -> Result<Order, OrderFault> {
    let order = read_order(heap, name, words)?;
    if words.next().is_some() {
        return Err(OrderFault::TooManyWords);
    }
    Ok(order)
}

// What a line of this number asks, or none where it is blank.
pub fn read_line(heap: Global, number: usize, line: &str) -> Option<NumberedOrder> {
    let mut words = words_of(line);
    let name = words.next()?;
    Some(NumberedOrder {
        line: number,
        order: read_whole(heap, name, &mut words),
    })
}

// The orders of a text, line by line.
pub fn read_orders(heap: Global, text: &str) -> Result<Vec<NumberedOrder>, AllocError> {
    (1..)
        .zip(text.lines())
        .filter_map(|(number, line)| read_line(heap, number, line))
        .collect(heap)
}
