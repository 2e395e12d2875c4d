// Frames of generated images: of four kinds, from every start mode, in both phases of the flash.
use crate::mixing;
use crate::mixing::Digest;
use crate::report::Machine;
use machine::{FRAME_LENGTH, IMAGE_LENGTH};
use std::io::{Print, Result};
use video::State;

// In the order of the numbers that are printed, 0 to 3.
#[derive(Clone, Copy)]
pub(crate) enum Kind {
    Random,
    Attributes,
    Text,
    Modes,
}

// An image of a profile by its number, from which its kind, its bytes and the state to paint it from follow.
#[derive(Clone, Copy)]
pub(crate) struct Sample {
    pub(crate) profile: u8,
    pub(crate) number: u8,
}

pub(crate) fn frames(out: &impl Print, profile: u8) -> Result<()> {
    for number in 0..=u8::MAX {
        painted(out, Sample { profile, number })?;
    }
    Ok(())
}

fn painted(out: &impl Print, sample: Sample) -> Result<()> {
    let mut bytes = [0; IMAGE_LENGTH];
    let image = &mut bytes[..machine::image_length(sample.profile)];
    sample.fill(image);
    let state = sample.state();
    let mut pixels = [0; FRAME_LENGTH];
    let answer = video::paint_frame(image, state, &mut pixels);
    let after = answer.state;
    println!(out;
        "{}image {} kind {} mode {} counter {}: status {} mode {} counter {} screen {} character {} digest {}",
        Machine(sample.profile),
        sample.number,
        sample.kind() as u8,
        state.mode,
        state.counter,
        answer.status,
        after.mode,
        after.counter,
        answer.screen,
        answer.character,
        Digest::of(&pixels)
    )
}

impl Sample {
    fn kind(self) -> Kind {
        match self.number % 4 {
            0 => Kind::Random,
            1 => Kind::Attributes,
            2 => Kind::Text,
            _ => Kind::Modes,
        }
    }

    // The counter is either end, the last before ink is hidden, or the first after it.
    pub(crate) fn state(self) -> State {
        let counter = match self.number / 32 % 4 {
            0 => 0,
            1 => 15,
            2 => 16,
            _ => 31,
        };
        State {
            mode: self.number / 4 % 8,
            counter,
            profile: self.profile,
        }
    }

    pub(crate) fn fill(self, image: &mut [u8]) {
        self.kind().fill(image, mixing::seed(self.number));
    }
}

impl Kind {
    pub(crate) fn fill(self, bytes: &mut [u8], seed: u64) {
        mixing::replace(bytes, seed, |_, x| self.shaped(x));
    }

    // A byte of this kind, made from two bytes of a number of the generator.
    fn shaped(self, x: u64) -> u8 {
        let [_, _, _, _, byte, chance, _, _] = x.to_le_bytes();
        let chance = chance % 16;
        match self {
            Kind::Random => byte,
            Kind::Attributes if chance < 12 => attribute(byte),
            Kind::Attributes => byte,
            Kind::Text if chance == 0 => attribute(byte),
            Kind::Text => picture(byte, 32),
            Kind::Modes if chance < 4 => 24 + byte % 8,
            Kind::Modes => picture(byte, 64),
        }
    }
}

// The byte without bits 5 and 6.
fn attribute(byte: u8) -> u8 {
    byte & 0b1001_1111
}

// The byte, with the given bit where it would be an attribute.
fn picture(byte: u8, bit: u8) -> u8 {
    if byte == attribute(byte) {
        byte | bit
    } else {
        byte
    }
}
