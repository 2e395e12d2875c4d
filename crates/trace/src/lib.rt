// A list of bus accesses in one call: the records are answered in order, each in its place.
#![tactic(auto)]

mod cycle;
mod list;

pub use cycle::Cycle;
pub use list::{Traced, trace};
