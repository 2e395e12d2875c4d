// The card of line starts that technicians carry.
#![tactic(auto)]

mod card;

pub use card::{CARD_LENGTH, line_starts};
