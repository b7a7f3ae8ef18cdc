// Lines written into a notebook, and lines marked taken.
ghost use Rattle.std.specs.Prelude.{◌≡◌, ◌<◌, length, take, Some, slice_set};
ghost use Rattle.std.specs.List.{slice_get};
ghost use Rattle.std.specs.Option.{option_map};
ghost use Rattle.routes.specs.Work.{marked, notebook_after, used_after};

use super::line::{Line, Notebook};

impl<'a, L: Copy> Notebook<'a, L> {
    // A notebook in these lines, of which none is used.
    pub(super) fn of(lines: &'a mut [Line<L>]) -> Notebook<'a, L>
        ensures lines { result.lines.now ≡ lines.old }
        ensures used { result.used ≡ 0 }
    {
        Notebook { lines, used: 0 }
    }

    // The lines used.
    pub(super) fn lines_used(&self) -> &[Line<L>]
        ensures { result.now ≡ take self.now.used self.now.lines.now }
    {
        let lines = &*self.lines;
        &lines[..self.used]
    }

    // Writes a line behind those used, if there is one to write; answers none where all lines are used.
    pub(super) fn note(&mut self, line: Option<Line<L>>) -> Option<()>
        ensures used { option_map (λ _. self.new.used) result ≡ used_after line self.old.used (length self.old.lines.now) }
        ensures lines { self.new.lines.now ≡ notebook_after line self.old.used (length self.old.lines.now) self.old.lines.now }
    {
        let Some(line) = line else {
            return Some(());
        };
        if self.used == self.lines.len() {
            return None;
        }
        // by index: a proof knows no element of a slice after a write through `get_mut`
        self.lines[self.used] = line;
        self.used += 1;
        Some(())
    }

    // Marks the line at a place taken, and answers it as it was.
    pub(super) fn mark_taken(&mut self, place: usize) -> Line<L>
        requires { place < length self.old.lines.now }
        ensures line { slice_get self.old.lines.now place ≡ Some result }
        ensures lines { self.new.lines.now ≡ slice_set self.old.lines.now place (marked result) }
        ensures used { self.new.used ≡ self.old.used }
    {
        let line = self.lines[place];
        self.lines[place].taken = true;
        line
    }
}
