// Two frames, line by line.
ghost use Rattle.std.specs.Prelude.{◌≡◌, ◌*◌, ◌≤◌, length};
ghost use Rattle.std.proofs.lemmas.List.Edits.{sets};
ghost use Rattle.machine.specs.Refusal.{status_of};
ghost use Rattle.machine.specs.Sizes.{columns, lines, line_length};
ghost use Rattle.compare.specs.Answer.{compare_refusal, compare_answer, counts_left, cells_left};
ghost use Rattle.compare.specs.Internal.{places_of, cells_of, found_with, found_in, counts_in, listed_in};

use crate::comparison::{Comparison, Found, refused};
use crate::pixels::{Frames, Line};
use crate::{LISTED_CELLS, NO_CELL};
use machine::{FRAME_LENGTH, LINES, Refusal, check_output};

// Two frames, any byte as a pixel. Refusal 2 for any of the four lengths.
pub fn compare(
    first: &[u8],
    second: &[u8],
    line_counts: &mut [u16],
    cells: &mut [u16],
) -> Comparison
    ensures value { result ≡ compare_answer first.now second.now line_counts.old cells.old }
    ensures line_counts_after { line_counts.new ≡ counts_left first.now second.now line_counts.old cells.old }
    ensures cells_after { cells.new ≡ cells_left first.now second.now line_counts.old cells.old }
{
    match check_lengths(first.len(), second.len(), line_counts.len(), cells.len()) {
        Ok(()) => {
            cells.fill(NO_CELL);
            Frames { first, second }.find(line_counts, cells).report()
        }
        Err(reason) => refused(reason),
    }
}

fn check_lengths(
    first: usize,
    second: usize,
    line_counts: usize,
    cells: usize,
) -> Result<(), Refusal>
    ensures { status_of result ≡ compare_refusal first second line_counts cells }
{
    check_output(FRAME_LENGTH, first)?;
    check_output(FRAME_LENGTH, second)?;
    check_output(LINES, line_counts)?;
    check_output(LISTED_CELLS, cells)
}

impl Frames<'_> {
    // All lines, into a list of cells that is clear.
    fn find(self, line_counts: &mut [u16], cells: &mut [u16]) -> Found
        requires line_counts_len { length line_counts.old ≡ lines }
        requires cells_value { cells.old ≡ listed_in self.first.now self.second.now 0 }
        ensures value { result ≡ found_in self.entry.first.now self.entry.second.now lines }
        ensures line_counts_after { line_counts.new ≡ counts_in self.entry.first.now self.entry.second.now lines }
        ensures cells_after { cells.new ≡ listed_in self.entry.first.now self.entry.second.now lines }
    {
        let mut found = Found::nothing();
        for number in 0..LINES {
            let line = Line {
                frames: self,
                number,
            };
            let pixels = line.differing_pixels();
            line_counts[number] = pixels as u16;
            found = found.with_line(line, pixels, cells);
        }
        found
    }
}

impl Found {
    // What a line adds, of which so many pixels differ. Only a line that differs is gone through cell by cell.
    fn with_line(self, line: Line, pixels: u8, cells: &mut [u16]) -> Found
        requires pixels_value { pixels ≡ length (places_of line) }
        requires left_le_line_length { self.left ≤ line_length }
        requires pixels_bound { self.pixels ≤ line_length * line.number }
        requires cells_bound { self.cells ≤ columns * line.number }
        ensures value { result ≡ found_with self (places_of line.entry) (cells_of line.entry) }
        ensures cells_after { cells.new ≡ sets cells.old self.cells (cells_of line.entry) }
    {
        if pixels == 0 {
            return self;
        }
        Found {
            left: line.first_x(self.left),
            right: line.last_x(self.right),
            top: self.top.min(line.number),
            bottom: self.bottom.max(line.number),
            pixels: self.pixels + pixels as usize,
            cells: line.list_cells(self.cells, cells),
        }
    }
}
