// The cells of a line that differ, listed and counted.
ghost use Rattle.std.specs.Prelude.{◌≡◌, ◌+◌, ◌*◌, ◌≤◌, length, set};
ghost use Rattle.std.proofs.lemmas.List.Edits.{sets};
ghost use Rattle.machine.specs.Sizes.{columns};
ghost use Rattle.compare.specs.Internal.{cells_of};

use crate::pixels::Line;
use machine::COLUMNS;

impl Line<'_> {
    // How many cells differ with those of the line, which go into the list. The count goes on where the list is full: it is no length of
    // the list, and a struct of the two would hold a borrow and no fact.
    pub(crate) fn list_cells(self, before: usize, cells: &mut [u16]) -> usize
        requires { before ≤ columns * self.number }
        ensures value { result ≡ before + length (cells_of self.entry) }
        ensures cells_after { cells.new ≡ sets cells.old before (cells_of self.entry) }
    {
        let mut count = before;
        for column in 0..COLUMNS {
            let cell = COLUMNS * self.number + column;
            if self.frames.cell_differs(cell) {
                list_cell(cells, count, cell as u16);
                count += 1;
            }
        }
        count
    }
}

// A full list stays as it is.
fn list_cell(cells: &mut [u16], count: usize, cell: u16)
    ensures { cells.new ≡ set cells.old count cell }
{
    if count < cells.len() {
        cells[count] = cell;
    }
}
