// A grabbed line against the reference: how far it has slipped sideways.
#![tactic(auto)]

mod slip;

pub use slip::{Slip, find_slip};
