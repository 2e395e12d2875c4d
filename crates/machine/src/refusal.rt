// The refusals, and the test of each. An entry point runs those that concern its inputs in its own order.
ghost use Rattle.std.specs.Prelude.{◌≡◌, [], ◌∷◌};
ghost use Rattle.machine.specs.Refusal.{number_of, check_of, status_of, refusal, memory_check, output_check, mode_check, counter_check, line_check, column_check, profile_check, controller_check, trace_check};

use crate::controller::Controller;
use crate::image::{image_length, is_16k};
use crate::{COLUMNS, LAST_COUNT, LAST_MODE, LAST_PROFILE, LINES, LONGEST_TRACE};

// Why nothing is answered, under the number that stands in the status of an answer.
#[derive(Clone, Copy, Debug, PartialEq, Eq)]
pub enum Refusal {
    Memory = 1,
    Output = 2,
    Mode = 3,
    Counter = 4,
    Line = 5,
    Column = 6,
    Kind = 7,
    Trace = 8,
    Profile = 12,
    Controller = 13,
}

impl From<Refusal> for u8 {
    ghost from_gives = { λ reason number. number ≡ number_of reason };

    fn from(reason: Refusal) -> u8 {
        reason as u8
    }
}

// What the checks share. They stay apart, since each has its limit and its refusal in one place: one check for all would have the two at
// every call.
fn refuse_if(applies: bool, reason: Refusal) -> Result<(), Refusal>
    ensures { status_of result ≡ refusal (check_of reason applies ∷ []) }
{
    if applies { Err(reason) } else { Ok(()) }
}

pub fn check_memory(profile: u8, size: usize) -> Result<(), Refusal>
    ensures { status_of result ≡ refusal (memory_check profile size ∷ []) }
{
    refuse_if(size != image_length(profile), Refusal::Memory)
}

pub fn check_output(wanted: usize, size: usize) -> Result<(), Refusal>
    ensures { status_of result ≡ refusal (output_check wanted size ∷ []) }
{
    refuse_if(size != wanted, Refusal::Output)
}

pub fn check_mode(mode: u8) -> Result<(), Refusal>
    ensures { status_of result ≡ refusal (mode_check mode ∷ []) }
{
    refuse_if(mode > LAST_MODE, Refusal::Mode)
}

pub fn check_counter(counter: u8) -> Result<(), Refusal>
    ensures { status_of result ≡ refusal (counter_check counter ∷ []) }
{
    refuse_if(counter > LAST_COUNT, Refusal::Counter)
}

pub fn check_line(line: usize) -> Result<(), Refusal>
    ensures { status_of result ≡ refusal (line_check line ∷ []) }
{
    refuse_if(line >= LINES, Refusal::Line)
}

pub fn check_column(column: usize) -> Result<(), Refusal>
    ensures { status_of result ≡ refusal (column_check column ∷ []) }
{
    refuse_if(column >= COLUMNS, Refusal::Column)
}

pub fn check_trace(count: usize) -> Result<(), Refusal>
    ensures { status_of result ≡ refusal (trace_check count ∷ []) }
{
    refuse_if(count > LONGEST_TRACE, Refusal::Trace)
}

pub fn check_profile(profile: u8) -> Result<(), Refusal>
    ensures { status_of result ≡ refusal (profile_check profile ∷ []) }
{
    refuse_if(profile > LAST_PROFILE, Refusal::Profile)
}

// A memory image, by its profile: refusals 12, 1.
pub fn check_image(profile: u8, size: usize) -> Result<(), Refusal>
    ensures { status_of result ≡ refusal (profile_check profile ∷ memory_check profile size ∷ []) }
{
    check_profile(profile)?;
    check_memory(profile, size)
}

// Any number may be the kind, as in `controller_check`.
pub fn check_controller(profile: u8, kind: u8) -> Result<(), Refusal>
    ensures { status_of result ≡ refusal (controller_check profile kind ∷ []) }
{
    let has_none = kind == u8::from(Controller::None);
    refuse_if(is_16k(profile) & !has_none, Refusal::Controller)
}
