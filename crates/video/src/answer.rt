// What a painting answers.
ghost use Rattle.std.specs.Prelude.{◌≡◌, ◌≤◌, ◌<◌, ◌^◌};
ghost use Rattle.machine.specs.Refusal.{number_of, status_of, refusal};
ghost use Rattle.machine.specs.Sizes.{last_mode};
ghost use Rattle.video.specs.Answer.{picture_checks, state_checks, unpainted};
ghost use Rattle.video.specs.Internal.{answered};

use crate::registers::Registers;
use crate::state::State;
use machine::{DONE, Refusal, check_counter, check_image, check_mode, check_output};

#[repr(C)]
#[derive(Clone, Copy)]
pub struct Painted {
    // 0, or the number of the refusal: a record of the C interface.
    pub status: u8,
    pub state: State,
    // How many screen bytes and how many character bytes were used.
    pub screen: u32,
    pub character: u32,
}

// Refusals 12, 1, and 2 for what is to be painted: the first of lines and frames.
pub(crate) fn check_picture(
    profile: u8,
    memory: usize,
    wanted: usize,
    output: usize,
) -> Result<(), Refusal>
    ensures { status_of result ≡ refusal (picture_checks profile memory wanted output) }
{
    check_image(profile, memory)?;
    check_output(wanted, output)
}

// Refusals 3, 4.
pub(crate) fn check_state(state: State) -> Result<(), Refusal>
    ensures { status_of result ≡ refusal (state_checks state) }
{
    check_mode(state.mode)?;
    check_counter(state.counter)
}

pub(crate) fn refused(reason: Refusal, state: State) -> Painted
    ensures { result ≡ unpainted (number_of reason) state }
{
    Painted {
        status: u8::from(reason),
        state,
        screen: 0,
        character: 0,
    }
}

// The state in the mode that the registers were left in, and the counts.
pub(crate) fn answer(state: State, registers: Registers, screen: usize, character: usize) -> Painted
    requires mode_le_last_mode { registers.mode ≤ last_mode }
    requires screen_bound { (screen < 2 ^ 32) × (character < 2 ^ 32) }
    ensures { result ≡ answered state registers.mode screen character }
{
    Painted {
        status: DONE,
        state: state.with_mode(registers.mode as u8),
        screen: screen as u32,
        character: character as u32,
    }
}
