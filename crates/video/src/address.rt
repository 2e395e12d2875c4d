// Where the bytes of a cell are.
ghost use Rattle.std.specs.Prelude.{◌≡◌, ◌<◌, ◌-◌, ◌%◌, ltb};
ghost use Rattle.machine.specs.Image.{IsImage};
ghost use Rattle.machine.specs.Refusal.{status_of};
ghost use Rattle.machine.specs.Sizes.{columns, lines};
ghost use Rattle.card.specs.Card.{card, bitmap_lines, text_start, hires_start};
ghost use Rattle.video.specs.Address.{video_block, is_hires, is_bitmap, screen_address, character_address};
ghost use Rattle.video.specs.Answer.{address_refusal, address_answer};
ghost use Rattle.video.specs.Internal.{block_of};

use crate::registers::Registers;
use card::{CARD_LENGTH, line_starts};
use machine::{
    DONE, IMAGE_LENGTH_16K, LINES, Refusal, bit, check_column, check_line, check_mode,
    check_profile, choose, fold,
};

// All bytes that are used lie in the block of RAM from 8000 to BFFF, which in the 16K machine is the whole RAM. The painter is lent
// this block alone, and counts places from its start.
pub(crate) const BLOCK: usize = 0x8000;

// The lines that can show a bitmap; those below them are text in every mode.
const BITMAP_LINES: usize = 200;

// A character is eight rows high.
const CHARACTER_ROWS: usize = 8;

const TEXT_CHARACTERS: usize = 0xB400 - BLOCK;

const HIRES_CHARACTERS: usize = 0x9800 - BLOCK;

const ALTERNATE_CHARACTERS: usize = 0x400;

// The bits of the mode and of the style.
const HIRES: u64 = 4;

const ALTERNATE: u64 = 1;

const DOUBLE_HEIGHT: u64 = 2;

#[repr(C)]
#[derive(Clone, Copy)]
pub struct Address {
    // 0, or the number of the refusal: a record of the C interface.
    pub status: u8,
    pub address: u16,
}

// The profile is a number, as `fold` takes it.
pub(crate) fn video_block(memory: &[u8], profile: u8) -> &[u8]
    requires { IsImage profile memory.now }
    ensures value { result.now ≡ block_of profile memory.now }
    ensures image { IsImage 1 result.now }
{
    let from = fold(profile, BLOCK);
    let end = from + IMAGE_LENGTH_16K;
    &memory[from..end]
}

// Where the screen byte of a cell is. Refusals 12, 3, 5, 6.
pub fn screen_address(profile: u8, line: usize, column: usize, mode: u8) -> Address
    ensures { result ≡ address_answer profile line column mode }
{
    match check_cell(profile, line, column, mode) {
        Ok(()) => {
            let starts = line_starts();
            let place = Scanline::new(&starts, line).screen_address(column, u64::from(mode));
            Address {
                status: DONE,
                address: (fold(profile, BLOCK) + place) as u16,
            }
        }
        Err(reason) => Address {
            status: u8::from(reason),
            address: 0,
        },
    }
}

fn check_cell(profile: u8, line: usize, column: usize, mode: u8) -> Result<(), Refusal>
    ensures { status_of result ≡ address_refusal profile line column mode }
{
    check_profile(profile)?;
    check_mode(mode)?;
    check_line(line)?;
    check_column(column)
}

fn is_hires(mode: u64) -> bool
    ensures { result ≡ is_hires mode }
{
    bit(HIRES, mode)
}

// A line, where in the block its screen bytes begin in text and in hires, and whether it can show a bitmap: with that test in each
// cell, frames of text took 1.16 times as long.
#[derive(Clone, Copy)]
pub(crate) struct Scanline {
    pub number: usize,
    pub text: usize,
    pub hires: usize,
    pub can_show_bitmap: bool,
    ghost is_line: { number < lines },
    ghost text_is: { text ≡ text_start number - video_block },
    ghost hires_is: { hires ≡ hires_start number - video_block },
    ghost can_show_is: { can_show_bitmap ≡ ltb number bitmap_lines },
}

impl Scanline {
    pub(crate) fn new(starts: &[u16; CARD_LENGTH], number: usize) -> Self
        requires starts_value { starts.now ≡ card }
        requires number_lt_lines { number < lines }
        ensures { result.number ≡ number }
    {
        let text = usize::from(starts[number]);
        let hires = usize::from(starts[LINES + number]);
        Self {
            number,
            text: text - BLOCK,
            hires: hires - BLOCK,
            can_show_bitmap: number < BITMAP_LINES,
        }
    }

    pub(crate) fn screen_address(self, column: usize, mode: u64) -> usize
        requires { column < columns }
        ensures { result ≡ screen_address 1 self.number column mode }
    {
        choose(is_hires(mode), self.hires, self.text) + column
    }

    pub(crate) fn is_bitmap(self, mode: u64) -> bool
        ensures { result ≡ is_bitmap self.number mode }
    {
        self.can_show_bitmap && is_hires(mode)
    }

    // Where a character has the row that the line shows.
    pub(crate) fn character_address(self, registers: Registers, byte: u8) -> usize
        ensures { result ≡ character_address 1 self.number registers.mode registers.style (byte % 128) }
    {
        let number = self.number;
        let code = usize::from(byte % 128);
        let set = choose(is_hires(registers.mode), HIRES_CHARACTERS, TEXT_CHARACTERS);
        let alternate = choose(bit(ALTERNATE, registers.style), ALTERNATE_CHARACTERS, 0);
        let double = bit(DOUBLE_HEIGHT, registers.style);
        let row = choose(double, number / 2 % CHARACTER_ROWS, number % CHARACTER_ROWS);
        set + alternate + CHARACTER_ROWS * code + row
    }
}
