// The rows of a caller's list, written from the lines of the routes.
ghost use Rattle.std.specs.Prelude.{◌≡◌, ◌<◌, ◌≤◌, ◌++◌, length, drop};
ghost use Rattle.routes.specs.Rows.{PlacesInside, row_on, rows_at};

use super::enquiry::RouteRow;
use super::line::Line;

// The row of a line. No `From`, which would be open to callers, to whom a line shows nothing.
fn row_of<L: Copy>(line: &Line<L>) -> RouteRow
    ensures { result ≡ row_on line.now }
{
    RouteRow {
        count: u32::from(line.arcs.len()),
        arcs: line.arcs.places().map(u32::from),
        delay: line.totals.delay,
        jitter: line.totals.jitter,
        charge: line.totals.charge,
    }
}

// Writes the rows of the lines at these places into the first rows of a list.
pub(super) fn list_rows<L: Copy>(notebook: &[Line<L>], places: &[usize], list: &mut [RouteRow])
    requires room { length places.now ≤ length list.old }
    requires inside { PlacesInside notebook.now places.now }
    ensures { list.new ≡ rows_at notebook.now places.now ++ drop (length places.now) list.old }
{
    // by index: a proof knows no element of a slice after writes through `iter_mut` in a `zip`
    for (row, place) in places.iter().enumerate() {
        list[row] = row_of(&notebook[*place]);
    }
}
