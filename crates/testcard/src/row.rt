// The 40 cells of a text row or of a hires line.
ghost use Rattle.std.specs.Prelude.{◌≡◌, ◌+◌, ◌-◌, ◌≤◌, ◌<◌, length, replicate, set};
ghost use Rattle.std.proofs.Math.Seq.{paste};

use crate::attributes::INVERSE;
use std::ops::Range;

#[derive(Clone, Copy)]
pub(crate) struct Row {
    pub(crate) cells: [u8; 40],
}

// Each method says which columns it takes: a type for columns below 40 would be built at every call, no plainer.
impl Row {
    // The byte in every cell.
    pub(crate) fn of(byte: u8) -> Self {
        Row { cells: [byte; 40] }
    }

    // Puts bytes into the cells from a column on.
    pub(crate) fn write(&mut self, column: usize, bytes: &[u8])
        requires { column + length bytes.now ≤ 40 }
        ensures { self.new.cells ≡ paste self.old.cells column bytes.now (length bytes.now) }
    {
        self.cells[column..column + bytes.len()].copy_from_slice(bytes);
    }

    // Puts one byte into some cells.
    pub(crate) fn fill(&mut self, columns: Range<usize>, byte: u8)
        requires { (columns.start ≤ columns.end) × (columns.end ≤ 40) }
        ensures { self.new.cells ≡ paste self.old.cells columns.start
            (replicate (columns.end - columns.start) byte) (columns.end - columns.start) }
    {
        self.cells[columns].fill(byte);
    }

    // Puts one byte, an attribute, into a cell.
    pub(crate) fn attribute(&mut self, column: usize, byte: u8)
        requires { column < 40 }
        ensures { self.new.cells ≡ set self.old.cells column byte }
    {
        self.cells[column] = byte;
    }

    // A caption, and at column 7 the attribute that holds from column 8 on.
    pub(crate) fn begin(&mut self, caption: &[u8], byte: u8)
        requires { length caption.now ≤ 7 }
    {
        self.write(0, caption);
        self.attribute(7, byte);
    }

    // Puts character codes that follow each other into the cells from a column on.
    pub(crate) fn codes(&mut self, column: usize, first: u8, count: u8)
        requires { (column + count ≤ 40) × (first + count ≤ 128) }
    {
        for i in 0..count {
            self.cells[column + i as usize] = first + i;
        }
    }

    // Sets bit 7 of some cells.
    pub(crate) fn inverse(&mut self, columns: Range<usize>)
        requires { (columns.start ≤ columns.end) × (columns.end ≤ 40) }
    {
        for byte in &mut self.cells[columns] {
            *byte |= INVERSE;
        }
    }

    // Eight bars from column 8 on, one for each colour: its attribute, and three cells of the byte.
    pub(crate) fn bars(&mut self, attribute: u8, byte: u8)
        requires { attribute + 7 < 256 }
    {
        for colour in 0..8 {
            let bar = [attribute + colour, byte, byte, byte];
            self.write(8 + 4 * colour as usize, &bar);
        }
    }
}
