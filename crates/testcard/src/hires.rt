// The hires part of the card: lines 64 to 95 beside a caption, lines 96 to 111 in full width.
use crate::attributes::{FLASH, INK, INVERSE, TEXT};
use crate::memory::Image;
use crate::row::Row;

// A picture byte with no pixel set; the byte 0 is an attribute.
const BLANK: u8 = 0x40;

// Picture bytes of six lines: a pixel that moves right by one each line.
const DIAGONAL: [u8; 6] = [0x60, 0x50, 0x48, 0x44, 0x42, 0x41];

// Likewise: two pixels that cross.
const CROSS: [u8; 6] = [0x61, 0x52, 0x4C, 0x4C, 0x52, 0x61];

// One line of the frames of the text cells.
fn grid(line: usize) -> u8 {
    if line % 8 == 0 { 0x7F } else { 0x60 }
}

impl Row {
    // On each line 1E in the text row, at column 7, begins hires, and 1A here, at column 39, ends it.
    fn split_line(&mut self, line: usize) {
        self.attribute(8, INK + 2);
        self.fill(9..18, grid(line));
        self.attribute(18, INK + 3);
        self.fill(19..29, DIAGONAL[line % 6]);
        self.attribute(29, INVERSE | (INK + 6));
        self.fill(30..39, INVERSE | CROSS[line % 6]);
        self.attribute(39, TEXT);
    }

    // Stripes of one pixel and of three, and a bar that flashes.
    fn full_line(&mut self, ink: u8) {
        self.attribute(0, ink);
        self.fill(1..14, 0x6A);
        self.fill(14..27, 0x78);
        self.attribute(27, FLASH);
        self.fill(28..40, 0x7F);
    }
}

impl Image {
    // Lines 64 to 95: a grid, diagonals, and crosses in inverse. The last line stays in hires.
    pub(crate) fn split(&mut self) {
        for line in 64..96 {
            self.lines[line].split_line(line);
        }
        self.lines[95].fill(39..40, BLANK);
    }

    // Lines 96 to 111, two in each ink. The last line returns to text at column 19.
    pub(crate) fn full(&mut self) {
        for ink in 0..8 {
            let line = 96 + 2 * ink as usize;
            self.lines[line].full_line(INK + ink);
            self.lines[line + 1].full_line(INK + ink);
        }
        self.lines[111].attribute(19, TEXT);
    }
}
