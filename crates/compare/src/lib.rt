// A grabbed frame against the reference: which pixels, lines and cells differ.
#![tactic(auto)]

mod cells;
mod comparison;
mod frames;
mod pixels;

pub use comparison::Comparison;
pub use frames::compare;

// How many cells a comparison lists, and what stands in a place of the list that is not used: C lends the list, so it holds no Option.
pub const LISTED_CELLS: usize = 64;

pub const NO_CELL: u16 = 65_535;
