// The map of used addresses: a bit for each address.
#![tactic(auto)]

mod map;

pub use map::{BYTE_BITS, MAP_LENGTH, mark};
