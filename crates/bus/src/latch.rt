// The controller kind and its two latch bytes.
ghost use Rattle.std.specs.Prelude.{◌≡◌};
ghost use Rattle.machine.specs.Controller.{kind_of};
ghost use Rattle.bus.specs.Latch.{fresh_latches, latches_after};

use machine::Controller;

// Where a write sets a latch.
const MICRODISC_LATCH: u16 = 0x0314;

const JASMIN_FIRST_LATCH: u16 = 0x03FA;

const JASMIN_SECOND_LATCH: u16 = 0x03FB;

#[repr(C)]
#[derive(Clone, Copy)]
pub struct Latches {
    // The controller: 0 none, 1 Microdisc, 2 Jasmin. A number, since C may hand in any.
    pub kind: u8,
    pub first: u8,
    pub second: u8,
}

// No controller, and latches that nothing has been written to. A derived Default would not name the controller.
pub fn fresh_latches() -> Latches
    ensures { result ≡ fresh_latches }
{
    Latches {
        kind: u8::from(Controller::None),
        first: 0,
        second: 0,
    }
}

impl Latches {
    // The latches after a write, from the next access on.
    pub(crate) fn after_write(self, controller: Controller, address: u16, byte: u8) -> Self
        requires { kind_of controller ≡ self.kind }
        ensures { result ≡ latches_after self address byte }
    {
        match (controller, address) {
            (Controller::Microdisc, MICRODISC_LATCH) | (Controller::Jasmin, JASMIN_FIRST_LATCH) => {
                Latches {
                    first: byte,
                    ..self
                }
            }
            (Controller::Jasmin, JASMIN_SECOND_LATCH) => Latches {
                second: byte,
                ..self
            },
            _ => self,
        }
    }
}
