// The attributes that the card uses, as screen bytes.

// Black ink; another colour is added.
pub const INK: u8 = 0x00;

// Black paper; another colour is added.
pub const PAPER: u8 = 0x10;

pub const ALTERNATE: u8 = 0x09;

pub const DOUBLE: u8 = 0x0A;

pub const ALTERNATE_DOUBLE: u8 = 0x0B;

pub const FLASH: u8 = 0x0C;

// Text mode at 50 Hz.
pub const TEXT: u8 = 0x1A;

// Hires mode at 50 Hz.
pub const HIRES: u8 = 0x1E;

// Bit 7 of any screen byte, no attribute: each colour c of its cell becomes 7 - c.
pub const INVERSE: u8 = 0x80;
