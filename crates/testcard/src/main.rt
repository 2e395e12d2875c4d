// The test card: writes one memory image of 65,536 bytes to standard output. Painted in text mode
// at 50 Hz it shows each rule of the video half in a place of its own, with a caption.
#![tactic(auto)]

mod attributes;
mod glyphs;
mod hires;
mod memory;
mod row;
mod sets;

use attributes::{ALTERNATE, ALTERNATE_DOUBLE, DOUBLE, FLASH, HIRES, INK, INVERSE, PAPER, TEXT};
use memory::{IMAGE_LENGTH, Image, SPACE};
use sets::{BLOCK, MOSAIC};
use std::io::{Result, Write};

impl Image {
    // Rows 0 and 1 hold the same text, its upper and its lower half. Row 2 numbers the columns.
    fn title(&mut self) {
        for row in &mut self.screen[0..2] {
            row.write(0, &[PAPER + 4, DOUBLE, INK + 3]);
            row.write(8, b"TROPFENPFAD ULA TEST CARD");
        }
        self.screen[2].write(0, b"0123456789012345678901234567890123456789");
    }

    // Rows 3 to 6: the standard and the alternate set.
    fn text_sets(&mut self) {
        self.screen[3].write(0, b"B400    ABCDEFGHIJKLMNOPQRSTUVWXYZ");
        self.screen[4].write(0, b"        0123456789  - . / :");
        self.screen[5].begin(b"B800", ALTERNATE);
        self.screen[5].codes(8, MOSAIC, 32);
        self.screen[6].begin(b"", ALTERNATE);
        self.screen[6].codes(8, MOSAIC + 32, 32);
    }

    // Rows 8 to 14. Row 13 is read on line 111 alone, from column 20 on.
    fn hires_captions(&mut self) {
        self.screen[8].begin(b"HIRES", HIRES);
        self.screen[9].begin(b"LINES", HIRES);
        self.screen[10].begin(b"64-95", HIRES);
        self.screen[11].begin(b"1E 1A", HIRES);
        self.screen[13].attribute(20, PAPER + 1);
        self.screen[14].write(0, b"HIRES KEPT 96-111   1A IN 111 AT COL 19");
    }

    // Rows 15 to 18. The last has the papers again, inverse on their attribute cells too.
    fn colours(&mut self) {
        self.screen[15].write(0, b"COLOUR   0   1   2   3   4   5   6   7");
        self.screen[16].write(0, b"INK");
        self.screen[16].bars(INK, BLOCK);
        self.screen[17].write(0, b"PAPER");
        self.screen[17].bars(PAPER, SPACE);
        self.screen[18].write(0, b"INVERSE");
        self.screen[18].bars(INVERSE | PAPER, INVERSE | SPACE);
    }

    // Rows 20 and 21: an even row shows the upper half, an odd one the lower half.
    fn double_height(&mut self) {
        for row in &mut self.screen[20..22] {
            row.attribute(7, DOUBLE);
            row.write(8, b"DOUBLE HEIGHT");
            row.attribute(22, ALTERNATE_DOUBLE);
            row.codes(23, MOSAIC + 47, 17);
        }
        self.screen[20].write(0, b"DOUBLE");
    }

    // Row 22 flashes, and row 23 is inverse from its attribute on.
    fn flash_and_inverse(&mut self) {
        self.screen[22].begin(b"FLASH", FLASH);
        self.screen[22].write(8, b"16 FRAMES SHOWN 16 HIDDEN");
        self.screen[23].begin(b"BIT 7", INK + 6);
        self.screen[23].write(8, b"INK 6 AS 1  PAPER 0 AS 7");
        self.screen[23].inverse(7..40);
    }

    // Row 25: letters from the standard set at 9800, in hires mode, and again from that at B400.
    fn bottom_standard(&mut self) {
        let row = &mut self.screen[25];
        row.begin(b"9800", HIRES);
        row.write(8, b"ABCDEFGHIJKLMNO");
        row.attribute(24, TEXT);
        row.write(25, b"ABCDEFGHIJKLMNO");
    }

    // Row 26: mosaics from the alternate set at 9C00, and again from that at B800.
    fn bottom_alternate(&mut self) {
        let row = &mut self.screen[26];
        row.begin(b"9C00", HIRES);
        row.attribute(6, ALTERNATE);
        row.codes(8, MOSAIC + 1, 15);
        row.attribute(24, TEXT);
        row.codes(25, MOSAIC + 1, 15);
    }

    // Row 27, inverse in all its cells.
    fn last_row(&mut self) {
        self.screen[27].write(0, b"BF68 TO BFDF   THE FRAME ENDS IN MODE 2 ");
        self.screen[27].inverse(0..40);
    }
}

fn main(rt: HostRuntime) -> Result<()> {
    let mut memory = [0u8; IMAGE_LENGTH];
    let mut image = Image::new();
    image.draw_font();
    image.draw_slanted_font();
    image.draw_mosaics();
    image.title();
    image.text_sets();
    image.hires_captions();
    image.split();
    image.full();
    image.colours();
    image.double_height();
    image.flash_and_inverse();
    image.bottom_standard();
    image.bottom_alternate();
    image.last_row();
    image.put_into(&mut memory);
    rt.stdout().write_all(&memory)
}
