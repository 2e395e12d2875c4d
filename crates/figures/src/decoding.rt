// The decode of all 65,536 addresses, for each kind and the latch values that matter: how many addresses reach each target, and a
// digest of every target and number.
use crate::mixing::{Digest, Digested};
use crate::report::Machine;
use bus::{Controller, Decoded, Latches};
use machine::PROFILE_48K;
use std::io::{Print, Result};

const TARGETS: usize = 7;

#[derive(Clone, Copy)]
struct Tally {
    counts: [u64; TARGETS],
    digest: Digest,
}

pub(crate) fn settings(out: &impl Print) -> Result<()> {
    without_controller(out, PROFILE_48K)?;
    let microdisc = [(0, 0), (2, 0), (128, 0), (130, 0), (253, 0), (125, 255)];
    with_controller(out, PROFILE_48K, Controller::Microdisc, &microdisc)?;
    let jasmin = [
        (0, 0),
        (1, 0),
        (0, 1),
        (1, 1),
        (254, 254),
        (255, 254),
        (254, 255),
    ];
    with_controller(out, PROFILE_48K, Controller::Jasmin, &jasmin)
}

// The 16K machine has no other setting.
pub(crate) fn without_controller(out: &impl Print, profile: u8) -> Result<()> {
    with_controller(out, profile, Controller::None, &[(0, 0), (255, 255)])
}

// A setting for each pair of latch values.
fn with_controller(
    out: &impl Print,
    profile: u8,
    controller: Controller,
    values: &[(u8, u8)],
) -> Result<()> {
    for (first, second) in values {
        let latches = Latches {
            kind: u8::from(controller),
            first: *first,
            second: *second,
        };
        setting(out, profile, latches)?;
    }
    Ok(())
}

fn setting(out: &impl Print, profile: u8, latches: Latches) -> Result<()> {
    let tally = Tally::of(profile, latches);
    print!(out;
        "{}decode kind {} first {} second {}:",
        Machine(profile),
        latches.kind,
        latches.first,
        latches.second
    )?;
    for (target, count) in tally.counts.iter().enumerate() {
        print!(out; " {target} {count}")?;
    }
    println!(out; " digest {}", tally.digest)
}

impl Tally {
    fn of(profile: u8, latches: Latches) -> Self {
        let mut tally = Tally {
            counts: [0; TARGETS],
            digest: Digest::new(),
        };
        for address in 0..=u16::MAX {
            tally.add(bus::decode(profile, latches, address));
        }
        tally
    }

    fn add(&mut self, decoded: Decoded) {
        if let Some(count) = self.counts.get_mut(decoded.target as usize) {
            *count = count.wrapping_add(1);
        }
        self.digest = decoded.number.add_to(decoded.target.add_to(self.digest));
    }
}
