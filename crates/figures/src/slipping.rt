// Slips of generated lines that were moved, of stripes, and of lines of wrong lengths.
ghost use Rattle.std.specs.Prelude.{◌<◌, ◌≤◌};

use crate::generated::Kind;
use crate::{comparing, mixing};
use machine::LINE_LENGTH;
use slips::Slip;
use std::io::{Print, Result};

// The moves from -12 to 12, counted from 0.
const FARTHEST: u8 = 12;

const MOVES: u8 = 25;

// On the mean so many of 65,536 pixels are changed in a moved line.
const CHANGED: u64 = 4_096;

pub(crate) fn moves(out: &impl Print) -> Result<()> {
    for number in 0..MOVES {
        moved(out, number)?;
    }
    Ok(())
}

fn moved(out: &impl Print, number: u8) -> Result<()>
    requires { number < 25 }
{
    let mut reference = [0; LINE_LENGTH];
    Kind::Random.fill(&mut reference, mixing::seed(number));
    let mut grabbed = [0; LINE_LENGTH];
    Kind::Random.fill(&mut grabbed, mixing::seed(number + MOVES));
    shift(&reference, &mut grabbed, number);
    comparing::change(&mut grabbed, mixing::seed(number), CHANGED);
    print!(out; "slip moved {}", number as i8 - FARTHEST as i8)?;
    report(out, slips::find_slip(&reference, &grabbed))
}

// Pixel x goes to x + number - 12, where the line has that place.
fn shift(reference: &[u8; LINE_LENGTH], grabbed: &mut [u8; LINE_LENGTH], number: u8)
    requires { number < 25 }
{
    let from = FARTHEST.saturating_sub(number) as usize;
    let to = number.saturating_sub(FARTHEST) as usize;
    let count = LINE_LENGTH - from - to;
    grabbed[to..to + count].copy_from_slice(&reference[from..from + count]);
}

pub(crate) fn widths(out: &impl Print) -> Result<()> {
    for width in [1, 2, 3, 11, 12, 13, 240] {
        stripes(out, width)?;
    }
    Ok(())
}

// The grabbed line has the two colours the other way round.
fn stripes(out: &impl Print, width: usize) -> Result<()>
    requires { 0 < width }
{
    let reference = striped(width, 0);
    let grabbed = striped(width, 1);
    print!(out; "slip stripes {width}")?;
    report(out, slips::find_slip(&reference, &grabbed))
}

fn striped(width: usize, first: usize) -> [u8; LINE_LENGTH]
    requires { (0 < width) × (first ≤ 1) }
{
    let mut line = [0; LINE_LENGTH];
    for (x, pixel) in line.iter_mut().enumerate() {
        *pixel = ((x / width + first) % 2) as u8;
    }
    line
}

// Of each pair of lengths one is wrong.
pub(crate) fn lengths(out: &impl Print) -> Result<()> {
    let long = [0; LINE_LENGTH + 1];
    let right = &long[..LINE_LENGTH];
    pair(out, &long[..LINE_LENGTH - 1], right)?;
    pair(out, right, &long)
}

fn pair(out: &impl Print, reference: &[u8], grabbed: &[u8]) -> Result<()> {
    print!(out; "slip lengths {} {}", reference.len(), grabbed.len())?;
    report(out, slips::find_slip(reference, grabbed))
}

fn report(out: &impl Print, answer: Slip) -> Result<()> {
    println!(out;
        ": status {} slip {} disagreements {}",
        answer.status, answer.slip, answer.disagreements
    )
}
