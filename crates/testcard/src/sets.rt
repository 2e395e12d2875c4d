// The character sets of the card: its font and 64 mosaics, in text mode and in hires mode.
ghost use Rattle.std.specs.Prelude.{◌<◌, All};

use crate::glyphs::{LETTERS, SIGNS};
use crate::memory::{Glyph, Image};

// The code of a cell full of ink.
pub const BLOCK: u8 = 127;

// The code of the first of 64 mosaics.
pub const MOSAIC: u8 = 32;

const FULL: Glyph = [0b111111; 8];

// What gaps between the blocks of a mosaic leave.
const GAPS: Glyph = [
    0b110110, 0b110110, 0b000000, 0b110110, 0b110110, 0b000000, 0b110110, 0b110110,
];

// They leave nothing beyond the six pixels of a cell.
const _: () = prove!(
    GAPS[0] | GAPS[1] | GAPS[2] | GAPS[3] | GAPS[4] | GAPS[5] | GAPS[6] | GAPS[7] < 64
);

impl Image {
    // The font and the block.
    pub(crate) fn draw_font(&mut self) {
        self.text_standard[45..59].copy_from_slice(&SIGNS);
        self.text_standard[65..91].copy_from_slice(&LETTERS);
        self.text_standard[BLOCK as usize] = FULL;
    }

    // The font again, for hires mode.
    pub(crate) fn draw_slanted_font(&mut self) {
        for (glyph, upright) in self.hires_standard.iter_mut().zip(&self.text_standard) {
            *glyph = slanted(*upright);
        }
    }

    // Codes 32 to 95. Those of text mode have gaps between their blocks, those of hires mode none.
    pub(crate) fn draw_mosaics(&mut self) {
        draw_mosaics(&mut self.text_alternate[32..96], GAPS);
        draw_mosaics(&mut self.hires_alternate[32..96], FULL);
    }
}

fn draw_mosaics(glyphs: &mut [Glyph], mask: Glyph) {
    for (number, glyph) in glyphs.iter_mut().enumerate() {
        *glyph = mosaic(number, mask);
    }
}

// Bits 0 and 1 of the number are the top blocks, left and right; 2 and 3, and 4 and 5, those below.
fn mosaic(number: usize, mask: Glyph) -> Glyph
    ensures { All (λ row. row < 64) result }
{
    let top = blocks(number % 4);
    let middle = blocks(number / 4 % 4);
    let bottom = blocks(number / 16 % 4);
    let [a, b, c, d, e, f, g, h] = mask;
    [
        top & a,
        top & b,
        top & c,
        middle & d,
        middle & e,
        middle & f,
        bottom & g,
        bottom & h,
    ]
}

// Two blocks beside each other, three pixels each.
fn blocks(pair: usize) -> u8
    ensures { result < 64 }
{
    match pair {
        0 => 0b000000,
        1 => 0b111000,
        2 => 0b000111,
        _ => 0b111111,
    }
}

// The upper half of the glyph moves right by a pixel.
fn slanted(glyph: Glyph) -> Glyph {
    let [a, b, c, d, e, f, g, h] = glyph;
    [a / 2, b / 2, c / 2, d / 2, e, f, g, h]
}
