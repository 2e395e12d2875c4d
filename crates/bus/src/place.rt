// The address decode: a target, and the number of the byte or register that it selects there.
ghost use Rattle.std.specs.Prelude.{◌≡◌, ◌-◌, ◌≤◌, [], ◌∷◌, IfOk};
ghost use Rattle.machine.specs.Controller.{kind_of};
ghost use Rattle.machine.specs.Refusal.{status_of, refusal, kind_check, controller_check};
ghost use Rattle.bus.specs.Place.{target_number, ram, via, microdisc_upper, place, decode_refusal, decode_answer};

use crate::latch::Latches;
use machine::{Controller, DONE, Refusal, bit, check_controller, check_profile, fold};

// Page 3 holds the registers; ROM, EPROM and overlay RAM share the upper 16K.
const PAGE_3: u16 = 0x0300;

const BASIC_START: u16 = 0xC000;

const VIA_REGISTERS: u16 = 16;

// Where the boot EPROM begins: the Microdisc's has 8K, the Jasmin's 16K.
const EPROM_START_8K: u16 = 0xE000;

const EPROM_START_16K: u16 = 0xC000;

// The bits of the latches, by their weights.
const MICRODISC_BASIC: u64 = 2;

const MICRODISC_OVERLAY: u64 = 128;

const JASMIN_OVERLAY: u64 = 1;

const JASMIN_EPROM: u64 = 1;

// What an address reaches, under the number that stands in the records of C.
#[derive(Clone, Copy, Debug, PartialEq, Eq)]
pub enum Target {
    Ram = 0,
    Via = 1,
    Controller = 2,
    BasicRom = 3,
    OverlayRam = 4,
    BootEprom = 5,
    Unassigned = 6,
}

impl From<Target> for u8 {
    ghost from_gives = { λ target number. number ≡ target_number target };

    fn from(target: Target) -> u8 {
        target as u8
    }
}

#[derive(Clone, Copy)]
pub(crate) struct Place {
    pub target: Target,
    pub number: u16,
}

// C reads it: status and target are numbers.
#[repr(C)]
#[derive(Clone, Copy)]
pub struct Decoded {
    pub status: u8,
    pub target: u8,
    pub number: u16,
}

// Which target an address reaches. Refusals 12, 7, 13.
#[tactic(auto, using(machine::proofs::Refusals::by_number), unfolding(crate::specs::Place::decode_answer))]
pub fn decode(profile: u8, latches: Latches, address: u16) -> Decoded
    ensures { result ≡ decode_answer profile latches address }
{
    match try_decode(profile, latches, address) {
        Ok(reached) => Decoded {
            status: DONE,
            target: u8::from(reached.target),
            number: reached.number,
        },
        Err(reason) => Decoded {
            status: u8::from(reason),
            target: 0,
            number: 0,
        },
    }
}

fn try_decode(profile: u8, latches: Latches, address: u16) -> Result<Place, Refusal>
    ensures status { status_of result ≡ decode_refusal profile latches.kind }
    ensures value { IfOk result (λ reached. reached ≡ place profile latches address) }
{
    check_profile(profile)?;
    let controller = controller_of(profile, latches.kind)?;
    Ok(reach(profile, controller, latches, address))
}

// The controller of a machine, by its kind. Refusals 7, 13. That it is the controller of the latches is handed on to the two functions that
// need it: a struct of controller and latches would be made by three functions and taken apart in each of the two.
pub(crate) fn controller_of(profile: u8, kind: u8) -> Result<Controller, Refusal>
    ensures status { status_of result ≡ refusal (kind_check kind ∷ controller_check profile kind ∷ []) }
    ensures value { IfOk result (λ controller. kind_of controller ≡ kind) }
{
    let controller = Controller::try_from(kind)?;
    check_controller(profile, kind)?;
    Ok(controller)
}

// Profile, latches and address come one by one, as C hands them over: a struct of them would be made by each caller and read once.
#[tactic(auto, unfolding(crate::specs::Place::place))]
pub(crate) fn reach(profile: u8, controller: Controller, latches: Latches, address: u16) -> Place
    requires { kind_of controller ≡ latches.kind }
    ensures { result ≡ place profile latches address }
{
    let first = u64::from(latches.first);
    let second = u64::from(latches.second);
    match (controller, address) {
        (Controller::Microdisc, 0x0310..=0x0314 | 0x0318) => {
            Place::counted(Target::Controller, PAGE_3, address)
        }
        (Controller::Microdisc, 0x0310..=0x031F) => {
            Place::counted(Target::Unassigned, PAGE_3, address)
        }
        (Controller::Jasmin, 0x03F4..=0x03FF) => {
            Place::counted(Target::Controller, PAGE_3, address)
        }
        (_, 0x0300..=0x03FF) => Place::via(address),
        (Controller::Microdisc, 0xC000..=0xDFFF) => Place::microdisc_upper(
            first,
            address,
            Place::counted(Target::OverlayRam, 0, address),
        ),
        (Controller::Microdisc, 0xE000..=0xFFFF) => Place::microdisc_upper(
            first,
            address,
            Place::counted(Target::BootEprom, EPROM_START_8K, address),
        ),
        (Controller::Jasmin, 0xC000..=0xFFFF) if bit(JASMIN_OVERLAY, first) => {
            Place::counted(Target::OverlayRam, 0, address)
        }
        (Controller::Jasmin, 0xC000..=0xFFFF) if bit(JASMIN_EPROM, second) => {
            Place::counted(Target::BootEprom, EPROM_START_16K, address)
        }
        (_, 0xC000..=0xFFFF) => Place::counted(Target::BasicRom, BASIC_START, address),
        _ => Place::ram(profile, address),
    }
}

impl Place {
    // `eprom` is the place that the address reaches where the EPROM is selected.
    fn microdisc_upper(latch: u64, address: u16, eprom: Place) -> Self
        requires { BASIC_START ≤ address }
        ensures { result ≡ microdisc_upper latch address eprom }
    {
        if bit(MICRODISC_BASIC, latch) {
            Place::counted(Target::BasicRom, BASIC_START, address)
        } else if bit(MICRODISC_OVERLAY, latch) {
            Place::counted(Target::OverlayRam, 0, address)
        } else {
            eprom
        }
    }

    // Only RAM is mirrored: no other target's number is folded.
    fn ram(profile: u8, address: u16) -> Self
        ensures { result ≡ ram profile address }
    {
        Place {
            target: Target::Ram,
            number: fold(profile, address as usize) as u16,
        }
    }

    fn via(address: u16) -> Self
        ensures { result ≡ via address }
    {
        Place {
            target: Target::Via,
            number: address % VIA_REGISTERS,
        }
    }

    // The number counts from the target's first address.
    fn counted(target: Target, start: u16, address: u16) -> Self
        requires { start ≤ address }
        ensures { result ≡ record { target = target; number = address - start } }
    {
        Place {
            target,
            number: address - start,
        }
    }
}
