// One record of a trace, and the access that it asks for.
ghost use Rattle.std.specs.Prelude.{◌≡◌};
ghost use Rattle.trace.specs.Cycle.{is_write, filled, answered, board_of, board_after_cycle};

use bus::{Access, Latches, read, write_in_place};

#[repr(C)]
#[derive(Clone, Copy)]
pub struct Cycle {
    pub address: u16,
    // 0 is a read, any other value a write. A number, since C may hand in any.
    pub write: u8,
    // The byte to write.
    pub byte: u8,
    // Filled in, as the single access answers them.
    pub number: u16,
    pub target: u8,
    pub byte_read: u8,
}

impl Cycle {
    // The record with the answer of its access, which is made.
    pub(crate) fn answered(self, memory: &mut [u8], profile: u8, latches: &mut Latches) -> Self
        ensures value { result ≡ answered profile (board_of memory.old latches.old) self }
        ensures board_after { board_of memory.new latches.new ≡ board_after_cycle profile (board_of memory.old latches.old) self }
    {
        if self.is_write() {
            self.filled(write_in_place(memory, profile, latches, self.address, self.byte))
        } else {
            self.filled(read(memory, profile, *latches, self.address))
        }
    }

    fn is_write(self) -> bool
        ensures { result ≡ is_write self }
    {
        self.write != 0
    }

    // What was asked stays as it was, for a read too.
    fn filled(self, access: Access) -> Self
        ensures { result ≡ filled self access.target access.number access.byte }
    {
        Cycle {
            number: access.number,
            target: access.target,
            byte_read: access.byte,
            ..self
        }
    }
}
