// The memory image that the card is written into, in the parts that a picture reads.
ghost use Rattle.std.specs.Prelude.{◌≡◌, ◌+◌, ◌*◌, ◌≤◌, length};
ghost use Rattle.testcard.specs.Image.{with_part, with_rows, with_card};

use crate::row::Row;
use std::mem::size_of;

pub(crate) const SPACE: u8 = 0x20;

// The bytes of a character, a row each.
pub(crate) type Glyph = [u8; 8];

pub(crate) const IMAGE_LENGTH: usize = 65_536;

// The character sets in hires mode, on the three bottom rows.
const HIRES_SET: usize = 0x9800;

const HIRES_ALTERNATE_SET: usize = 0x9C00;

const HIRES_SCREEN: usize = 0xA000;

const TEXT_SET: usize = 0xB400;

const TEXT_ALTERNATE_SET: usize = 0xB800;

const TEXT_SCREEN: usize = 0xBB80;

#[derive(Drop)]
pub(crate) struct Image {
    pub(crate) hires_standard: [Glyph; 128],
    pub(crate) hires_alternate: [Glyph; 128],
    // Lines that hires mode reads; those from 128 on would overlap the sets.
    pub(crate) lines: [Row; 128],
    // Codes from 112 on of the alternate set would overlap the text screen.
    pub(crate) text_standard: [Glyph; 128],
    pub(crate) text_alternate: [Glyph; 112],
    // The text screen, the last three rows below the hires screen.
    pub(crate) screen: [Row; 28],
}

// The parts are all the memory from 9800 to BFDF, with no gap.
const _: () = prove!(HIRES_SET + size_of::<Image>() == 0xBFE0);

impl Image {
    // All bytes are 0, but the screen has spaces: the byte 0 is an attribute, black ink.
    pub(crate) fn new() -> Self {
        Image {
            hires_standard: [[0; 8]; 128],
            hires_alternate: [[0; 8]; 128],
            lines: [Row::of(0); 128],
            text_standard: [[0; 8]; 128],
            text_alternate: [[0; 8]; 112],
            screen: [Row::of(SPACE); 28],
        }
    }

    // Puts each part into the memory, at its address. Lent: an array handed back would be copied.
    pub(crate) fn put_into(&self, memory: &mut [u8; IMAGE_LENGTH])
        ensures { memory.new ≡ with_card memory.old self.now }
    {
        put(memory, HIRES_SET, self.hires_standard.as_flattened());
        put(
            memory,
            HIRES_ALTERNATE_SET,
            self.hires_alternate.as_flattened(),
        );
        put(memory, TEXT_SET, self.text_standard.as_flattened());
        put(
            memory,
            TEXT_ALTERNATE_SET,
            self.text_alternate.as_flattened(),
        );
        put_rows(memory, HIRES_SCREEN, &self.lines);
        put_rows(memory, TEXT_SCREEN, &self.screen);
    }
}

fn put(memory: &mut [u8], address: usize, bytes: &[u8])
    requires { address + length bytes.now ≤ length memory.old }
    ensures { memory.new ≡ with_part memory.old address bytes.now }
{
    memory[address..address + bytes.len()].copy_from_slice(bytes);
}

#[tactic(auto, unfolding(crate::specs::Image::with_first_rows))]
fn put_rows(memory: &mut [u8], address: usize, rows: &[Row])
    requires { address + 40 * length rows.now ≤ length memory.old }
    ensures { memory.new ≡ with_rows memory.old address rows.now }
{
    for (number, row) in rows.iter().enumerate() {
        put(memory, address + 40 * number, &row.cells);
    }
}
