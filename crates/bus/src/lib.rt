// The bus half: which target an address reaches, and what a read or a write does there.
#![tactic(auto)]

mod cycle;
mod latch;
mod place;

pub use cycle::{Access, Written, check_access, read, write, write_in_place};
pub use latch::{Latches, fresh_latches};
pub use machine::Controller;
pub use place::{Decoded, Target, decode};
