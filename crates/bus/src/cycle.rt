// One read or write of the bus.
ghost use Rattle.std.specs.Prelude.{◌≡◌, IfOk};
ghost use Rattle.machine.specs.Controller.{kind_of};
ghost use Rattle.machine.specs.Refusal.{number_of, status_of};
ghost use Rattle.bus.specs.Cycle.{Held, is_memory, fetched, stored, access_refusal, access_answer, read_answer, write_answer, write_contents, write_latches, written};

use crate::latch::Latches;
use crate::place::{Place, Target, controller_of, reach};
use machine::{Controller, DONE, Refusal, check_image};

// C reads it: status and target are numbers.
#[repr(C)]
#[derive(Clone, Copy)]
pub struct Access {
    pub status: u8,
    pub target: u8,
    pub number: u16,
    // The byte read; 0 for a write, and where the target holds none.
    pub byte: u8,
}

// C reads it: the fields of `Access` and the latches in one record.
#[repr(C)]
#[derive(Clone, Copy)]
pub struct Written {
    pub status: u8,
    pub target: u8,
    pub number: u16,
    pub byte: u8,
    pub latches: Latches,
}

// A read changes nothing. Refusals 12, 1, 7, 13. Inlined: as calls, the reads and writes of a trace took 17.2 ns in place of 14.4.
#[inline(always)]
#[tactic(auto, using(machine::proofs::Refusals::by_number, crate::proofs::Held::accepted_held), unfolding(crate::specs::Cycle::read_answer))]
pub fn read(memory: &[u8], profile: u8, latches: Latches, address: u16) -> Access
    ensures { result ≡ read_answer memory.now profile latches address }
{
    match check_access(profile, memory.len(), latches.kind) {
        Ok(controller) => {
            let reached = reach(profile, controller, latches, address);
            Access::done(reached, fetch(memory, reached))
        }
        Err(reason) => Access::refused(reason),
    }
}

// As `write_in_place`, with the latches handed in and back. Refusals 12, 1, 7, 13.
pub fn write(memory: &mut [u8], profile: u8, latches: Latches, address: u16, byte: u8) -> Written
    ensures value { result ≡ written (write_answer memory.old profile latches address) (write_latches memory.old profile latches address byte) }
    ensures memory_after { memory.new ≡ write_contents memory.old profile latches address byte }
{
    let mut left = latches;
    let answer = write_in_place(memory, profile, &mut left, address, byte);
    Written {
        status: answer.status,
        target: answer.target,
        number: answer.number,
        byte: answer.byte,
        latches: left,
    }
}

// A write stores at most one byte, or sets one latch of the lent record. Refusals 12, 1, 7, 13. Inlined, as `read` is.
#[inline(always)]
#[tactic(auto, using(machine::proofs::Refusals::by_number, crate::proofs::Held::accepted_held), unfolding(crate::specs::Cycle::write_answer, crate::specs::Cycle::write_contents, crate::specs::Cycle::write_latches))]
pub fn write_in_place(
    memory: &mut [u8],
    profile: u8,
    latches: &mut Latches,
    address: u16,
    byte: u8,
) -> Access
    ensures value { result ≡ write_answer memory.old profile latches.old address }
    ensures memory_after { memory.new ≡ write_contents memory.old profile latches.old address byte }
    ensures latches_after { latches.new ≡ write_latches memory.old profile latches.old address byte }
{
    match check_access(profile, memory.len(), latches.kind) {
        Ok(controller) => {
            let reached = reach(profile, controller, *latches, address);
            store(memory, reached, byte);
            *latches = latches.after_write(controller, address, byte);
            Access::done(reached, 0)
        }
        Err(reason) => Access::refused(reason),
    }
}

// The controller that the machine of an access has. Refusals 12, 1, 7, 13.
pub fn check_access(profile: u8, size: usize, kind: u8) -> Result<Controller, Refusal>
    ensures status { status_of result ≡ access_refusal profile size kind }
    ensures value { IfOk result (λ controller. kind_of controller ≡ kind) }
{
    check_image(profile, size)?;
    controller_of(profile, kind)
}

impl Access {
    fn done(reached: Place, byte: u8) -> Self
        ensures { result ≡ access_answer 0 reached byte }
    {
        Access {
            status: DONE,
            target: u8::from(reached.target),
            number: reached.number,
            byte,
        }
    }

    fn refused(reason: Refusal) -> Self
        ensures { result ≡ record { status = number_of reason; target = 0; number = 0; byte = 0 } }
    {
        Access {
            status: u8::from(reason),
            target: 0,
            number: 0,
            byte: 0,
        }
    }
}

fn fetch(memory: &[u8], reached: Place) -> u8
    requires { Held memory.now reached }
    ensures { result ≡ fetched memory.now reached }
{
    if is_memory(reached) {
        let at = reached.number as usize;
        memory[at]
    } else {
        0
    }
}

fn store(memory: &mut [u8], reached: Place, byte: u8)
    requires { Held memory.old reached }
    ensures { memory.new ≡ stored memory.old reached byte }
{
    if is_memory(reached) {
        let at = reached.number as usize;
        memory[at] = byte;
    }
}

fn is_memory(reached: Place) -> bool
    ensures { result ≡ is_memory reached }
{
    matches!(reached.target, Target::Ram | Target::OverlayRam)
}
