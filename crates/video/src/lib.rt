// The video half of the ULA: from the memory image and the state that the last frame left, the frame and the next state.
#![tactic(auto)]

mod address;
mod answer;
mod cell;
mod frame;
mod line;
mod map;
mod pattern;
mod registers;
mod source;
mod state;

pub use address::{Address, screen_address};
pub use answer::Painted;
pub use frame::{paint_frame, paint_frame_mapped};
pub use line::{paint_line, paint_line_mapped};
pub use state::{State, fresh_state};
