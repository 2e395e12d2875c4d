// Comparisons of generated frames, from equal ones to such as differ everywhere, and of wrong lengths.
use crate::generated::Kind;
use crate::mixing;
use crate::mixing::Digest;
use compare::LISTED_CELLS;
use machine::{FRAME_LENGTH, LINES};
use std::io::{Print, Result};

// Of each pair, on the mean so many of 65,536 pixels differ.
const LIMITS: [u64; 8] = [0, 1, 8, 64, 512, 4_096, 32_768, 65_536];

pub(crate) fn pairs(out: &impl Print) -> Result<()> {
    for (number, limit) in LIMITS.iter().enumerate() {
        pair(out, number as u8, *limit)?;
    }
    Ok(())
}

// Both lists hold something else before.
fn pair(out: &impl Print, number: u8, limit: u64) -> Result<()> {
    let mut first = [0; FRAME_LENGTH];
    Kind::Random.fill(&mut first, mixing::seed(number));
    let mut second = first;
    change(&mut second, mixing::seed(number), limit);
    let mut counts = [7; LINES];
    let mut cells = [7; LISTED_CELLS];
    let answer = compare::compare(&first, &second, &mut counts, &mut cells);
    println!(out;
        "compare {number} limit {limit}: status {} empty {} x {} {} line {} {} pixels {} cells {} counts {} list {}",
        answer.status,
        answer.empty as u8,
        answer.first_x,
        answer.last_x,
        answer.first_line,
        answer.last_line,
        answer.pixels,
        answer.cells,
        Digest::of(&counts),
        Digest::of(&cells)
    )
}

// Another byte at each place whose number of the generator is below the limit.
pub(crate) fn change(frame: &mut [u8], seed: u64, limit: u64) {
    mixing::replace(frame, seed, |byte, x| {
        if (x >> 40) % 65_536 < limit {
            byte.wrapping_add(1)
        } else {
            byte
        }
    });
}

// Of each quadruple of lengths one is wrong.
pub(crate) fn lengths(out: &impl Print) -> Result<()> {
    let long_frame = [0; FRAME_LENGTH + 1];
    let frame = &long_frame[..FRAME_LENGTH];
    let short_frame = &long_frame[..FRAME_LENGTH - 1];
    let mut counts = [0; LINES];
    let mut short_counts = [0; LINES - 1];
    let mut cells = [0; LISTED_CELLS];
    let mut long_cells = [0; LISTED_CELLS + 1];
    quadruple(out, short_frame, frame, &mut counts, &mut cells)?;
    quadruple(out, frame, &long_frame, &mut counts, &mut cells)?;
    quadruple(out, frame, frame, &mut short_counts, &mut cells)?;
    quadruple(out, frame, frame, &mut counts, &mut long_cells)
}

fn quadruple(
    out: &impl Print,
    first: &[u8],
    second: &[u8],
    counts: &mut [u16],
    cells: &mut [u16],
) -> Result<()> {
    let answer = compare::compare(first, second, counts, cells);
    println!(out;
        "compare lengths {} {} {} {}: status {} empty {} pixels {} cells {}",
        first.len(),
        second.len(),
        counts.len(),
        cells.len(),
        answer.status,
        answer.empty as u8,
        answer.pixels,
        answer.cells
    )
}
