// The state that one frame leaves and the next one begins with.
ghost use Rattle.std.specs.Prelude.{◌≡◌, ◌≤◌};
ghost use Rattle.machine.specs.Sizes.{last_count};
ghost use Rattle.video.specs.State.{fresh_state, with_mode, next_counter, after_frame};

use machine::{LAST_COUNT, PROFILE_48K};

const FRESH_MODE: u8 = 2;

// Numbers and no kinds: a record of the C interface, in which a caller may hand in any.
#[repr(C)]
#[derive(Clone, Copy)]
pub struct State {
    // 0 to 7: bit 1 is 50 Hz, bit 2 is hires.
    pub mode: u8,
    // The flash counter, 0 to 31.
    pub counter: u8,
    // The machine: 0 is 48K, 1 is 16K.
    pub profile: u8,
}

pub fn fresh_state() -> State
    ensures { result ≡ fresh_state }
{
    State {
        mode: FRESH_MODE,
        counter: 0,
        profile: PROFILE_48K,
    }
}

impl State {
    pub(crate) fn with_mode(self, mode: u8) -> Self
        ensures { result ≡ with_mode mode self }
    {
        State { mode, ..self }
    }

    // A frame moves the counter; its cells set the mode.
    pub(crate) fn after_frame(self) -> Self
        requires { self.counter ≤ last_count }
        ensures { result ≡ after_frame self }
    {
        State {
            counter: next_counter(self.counter),
            ..self
        }
    }
}

fn next_counter(counter: u8) -> u8
    requires { counter ≤ last_count }
    ensures { result ≡ next_counter counter }
{
    if counter == LAST_COUNT {
        0
    } else {
        counter + 1
    }
}
