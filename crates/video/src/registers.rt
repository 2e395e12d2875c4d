// The four registers of the video half: they travel as one value from cell to cell and from line to line.
ghost use Rattle.std.specs.Prelude.{◌≡◌};
ghost use Rattle.video.specs.Internal.{shown};
ghost use Rattle.video.specs.Registers.{line_reset, is_attribute, latched, shown_ink};

use crate::pattern::pixels;
use machine::{CELL_LENGTH, bit, choose};
use std::marker::Model;

const WHITE: u64 = 7;

const BLACK: u64 = 0;

const PLAIN: u64 = 0;

// The bit of the style that is flash.
const FLASH: u64 = 4;

// From this count on flashing ink is hidden.
const HIDDEN_FROM: u8 = 16;

// Words, and no bytes: four bytes would be packed into one word and unpacked in each cell.
#[derive(Clone, Copy)]
pub(crate) struct Registers {
    pub ink: u64,
    pub style: u64,
    pub paper: u64,
    pub mode: u64,
}

// Ink and paper are always colours. A model and no ghost field: the rules speak of any four numbers, with no proof beside them.
impl Model for Registers {
    ghost use Rattle.std.specs.Prelude.{◌≤◌};
    ghost use Rattle.video.specs.RegisterValues.{RegisterValues};

    ghost Value = { RegisterValues };

    ghost view = { λ r. record { ink = r.ink; style = r.style; paper = r.paper; mode = r.mode } };

    ghost inverse = { λ h. record { ink = h.ink; style = h.style; paper = h.paper; mode = h.mode } };

    ghost invariant = { λ r. (r.ink ≤ 7) × (r.paper ≤ 7) };
}

pub(crate) fn is_attribute(byte: u8) -> bool
    ensures { result ≡ is_attribute byte }
{
    byte / 32 % 4 == 0
}

impl Registers {
    // The registers of a line that begins in a mode.
    pub(crate) fn at_line_start(mode: u64) -> Self
        ensures { result ≡ line_reset mode }
    {
        Self {
            ink: WHITE,
            style: PLAIN,
            paper: BLACK,
            mode,
        }
    }

    // All but the mode begin anew.
    pub(crate) fn line_reset(self) -> Self
        ensures { result ≡ line_reset self.mode }
    {
        Self::at_line_start(self.mode)
    }

    // The low five bits choose the register, the low three are its value.
    pub(crate) fn latch(&mut self, byte: u8)
        ensures { self.new ≡ latched self.old byte }
    {
        let value = u64::from(byte % 8);
        match byte % 32 {
            0..=7 => self.ink = value,
            8..=15 => self.style = value,
            16..=23 => self.paper = value,
            _ => self.mode = value,
        }
    }

    // The six pixels of a pattern, which is the low six bits of a byte, under a screen byte.
    pub(crate) fn paint_colours(self, counter: u8, pattern: u8, byte: u8) -> [u8; CELL_LENGTH]
        ensures { result ≡ shown self counter byte pattern }
    {
        pixels(self.shown_ink(counter), self.paper, pattern, byte)
    }

    // Ink, or paper in its place while it flashes.
    fn shown_ink(self, counter: u8) -> u64
        ensures { result ≡ shown_ink self counter }
    {
        let hidden = bit(FLASH, self.style) && counter >= HIDDEN_FROM;
        choose(hidden, self.paper, self.ink)
    }
}
