// Lines of a notebook, and a notebook as the work writes it.
ghost use Rattle.std.specs.Prelude.{◌≡◌, ◌≤◌, length};
ghost use Rattle.routes.specs.Lines.{blank_line};

use super::totals::Totals;
use network::ArcNumbers;

// One line of a notebook: a partial route.
#[derive(Clone, Copy)]
pub struct Line<L> {
    // the length of the arcs, and that joined with the least length from their end
    pub(super) length: L,
    pub(super) projected: L,
    pub(super) totals: Totals,
    pub(super) arcs: ArcNumbers,
    // the site where the arcs end
    pub(super) end: u8,
    pub(super) taken: bool,
}

impl<L: Copy> Line<L> {
    // A line with nothing written, to make a notebook of.
    pub fn blank(length: L) -> Line<L>
        ensures { result ≡ blank_line length }
    {
        Line {
            length,
            projected: length,
            totals: Totals::default(),
            arcs: ArcNumbers::new(),
            end: 0,
            taken: false,
        }
    }
}

// A caller's notebook, and how many of its first lines are used: the lines are lent, so that they cannot be a `Vec`.
#[derive(Drop)]
pub(super) struct Notebook<'a, L> {
    pub(super) lines: &'a mut [Line<L>],
    pub(super) used: usize,
    ghost room: { used ≤ length lines.now },
}
