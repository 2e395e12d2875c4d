// The records of a trace, one after the other.
ghost use Rattle.std.specs.Prelude.{◌≡◌};
ghost use Rattle.machine.specs.Refusal.{status_of};
ghost use Rattle.trace.specs.List.{trace_refusal, trace_answer, trace_contents, trace_cycles};

use crate::cycle::Cycle;
use bus::{Latches, check_access};
use machine::{DONE, Refusal, check_trace};

// C reads it: the status is a number.
#[repr(C)]
#[derive(Clone, Copy)]
pub struct Traced {
    pub status: u8,
    pub latches: Latches,
}

// Each record is answered as `read` or `write` answers its access, on what the records before it left. Refusals 12, 1, 7, 13, 8.
#[tactic(auto, using(machine::proofs::Refusals::by_number), unfolding(crate::specs::List::trace_answer, crate::specs::List::trace_contents, crate::specs::List::trace_cycles))]
pub fn trace(memory: &mut [u8], profile: u8, latches: Latches, cycles: &mut [Cycle]) -> Traced
    ensures value { result ≡ trace_answer memory.old profile latches cycles.old }
    ensures memory_after { memory.new ≡ trace_contents memory.old profile latches cycles.old }
    ensures cycles_after { cycles.new ≡ trace_cycles memory.old profile latches cycles.old }
{
    match check_call(profile, memory.len(), latches.kind, cycles.len()) {
        Ok(()) => {
            let mut left = latches;
            for cycle in cycles.iter_mut() {
                *cycle = cycle.answered(memory, profile, &mut left);
            }
            Traced {
                status: DONE,
                latches: left,
            }
        }
        Err(reason) => Traced {
            status: u8::from(reason),
            latches,
        },
    }
}

fn check_call(profile: u8, size: usize, kind: u8, count: usize) -> Result<(), Refusal>
    ensures { status_of result ≡ trace_refusal profile size kind count }
{
    check_access(profile, size, kind)?;
    check_trace(count)
}
