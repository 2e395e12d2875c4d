// What every crate shares: the profiles and their memory images, the sizes of a frame, the controllers, the refusals and their limits.
#![tactic(auto)]

mod controller;
mod image;
mod refusal;
mod select;

pub use controller::Controller;
pub use image::{fold, image_length};
pub use refusal::{
    Refusal, check_column, check_controller, check_counter, check_image, check_line, check_memory,
    check_mode, check_output, check_profile, check_trace,
};
pub use select::{bit, choose};

// The profiles: the 48K machine, and the 16K machine. Numbers and no enum: `image_length` and `fold` promise an answer for any number,
// and a state that C hands in holds one.
pub const PROFILE_48K: u8 = 0;

pub const PROFILE_16K: u8 = 1;

// The memory image is the RAM alone (document 01: memory image): all 64K of the 48K machine.
pub const IMAGE_LENGTH: usize = 65_536;

pub const IMAGE_LENGTH_16K: usize = 16_384;

// A cell is six pixels, a line forty cells, a frame 224 lines; a pixel is a byte.
pub const CELL_LENGTH: usize = 6;

pub const COLUMNS: usize = 40;

pub const LINES: usize = 224;

pub const LINE_LENGTH: usize = CELL_LENGTH * COLUMNS;

pub const FRAME_LENGTH: usize = LINE_LENGTH * LINES;

// The largest mode, flash count and profile.
pub const LAST_MODE: u8 = 7;

pub const LAST_COUNT: u8 = 31;

pub const LAST_PROFILE: u8 = 1;

// The most records in a trace.
pub const LONGEST_TRACE: usize = 1_024;

// The status of a record of the C interface is this where the call is done, else the number of the first refusal that applies.
pub const DONE: u8 = 0;
