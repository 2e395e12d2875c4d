// The disk controllers, by their kinds.
ghost use Rattle.std.specs.Prelude.{◌≡◌};
ghost use Rattle.machine.specs.Controller.{kind_of, IsKind};

use crate::refusal::Refusal;

#[derive(Clone, Copy, Debug, PartialEq, Eq)]
pub enum Controller {
    None = 0,
    Microdisc = 1,
    Jasmin = 2,
}

impl From<Controller> for u8 {
    ghost from_gives = { λ controller kind. kind ≡ kind_of controller };

    fn from(controller: Controller) -> u8 {
        controller as u8
    }
}

// The controller of a kind. Refusal 7.
impl TryFrom<u8> for Controller {
    type Error = Refusal;

    ghost try_from_gives = { IsKind };

    fn try_from(kind: u8) -> Result<Self, Refusal> {
        match kind {
            0 => Ok(Controller::None),
            1 => Ok(Controller::Microdisc),
            2 => Ok(Controller::Jasmin),
            _ => Err(Refusal::Kind),
        }
    }
}
