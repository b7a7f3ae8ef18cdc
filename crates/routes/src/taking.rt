// The work of an enquiry: lines are taken in order, and for each the partial routes one arc longer are written, until enough
// routes are taken or no line is left.
ghost use Rattle.std.specs.Prelude.{◌≡◌, length};
ghost use Rattle.network.specs.Copies.{copy_meaning};
ghost use Rattle.routes.specs.Work.{WorkDone};

use super::choosing::next_line;
use super::extending::Search;
use super::line::Notebook;
use arrayvec::ArrayVec;
use length::Kind;
use network::Network;

// Takes lines in order until as many routes are taken as are wanted, or none is left: the places of the lines of the routes.
// None where there are fewer lines than the work takes.
pub(super) fn take_lines<K: Kind>(
    search: &Search<'_, '_, K>,
    notebook: &mut Notebook<'_, K::Length>,
) -> Option<ArrayVec<usize, 32>>
    requires { notebook.old.used ≡ 0 }
    ensures { WorkDone K.Kind.model (copy_meaning search.now.network.now) search.now.enquiry.now result notebook.new (length notebook.old.lines.now) }
{
    let enquiry = search.enquiry;
    let mut finished = ArrayVec::new();
    // how many lines were taken, by which the loop is seen to end: to count the marks in the notebook would be no plainer
    let mut done = 0usize;
    notebook.note(search.start())?;
    // the label is the project's rule for this work
    'taking: while let Some(at) = next_line(&enquiry.kind, notebook.lines_used()) {
        let line = notebook.mark_taken(at);
        done += 1;
        if u32::from(line.end) == enquiry.destination {
            finished.push(at);
            if finished.len() == enquiry.wanted as usize {
                break 'taking;
            }
            continue 'taking;
        }
        // by number, since a line is written with the number of its arc
        for number in 0..search.network.arcs() {
            notebook.note(search.extended(&line, number as u8))?;
        }
    }
    Some(finished)
}
