// What the lines of several figures begin with.
use machine::PROFILE_48K;
use std::fmt;

// A line of the 48K machine does not name its profile. A profile is a number here, as in the state that C hands in.
#[derive(Clone, Copy)]
pub(crate) struct Machine(pub(crate) u8);

impl fmt::Display for Machine {
    fn fmt<W: fmt::Write>(&self, f: &mut fmt::Formatter<W>) -> fmt::Result {
        let profile = self.0;
        if profile == PROFILE_48K {
            return Ok(());
        }
        write!(f, "profile {profile} ")
    }
}
