// Used addresses in maps: of generated images, one after the other in one map, of lines, and of maps of wrong lengths.
use crate::generated::Sample;
use crate::mixing::Digest;
use crate::report::Machine;
use machine::{FRAME_LENGTH, IMAGE_LENGTH, LINE_LENGTH};
use std::io::{Print, Result};
use used_map::MAP_LENGTH;

// Two images of each kind.
const IMAGES: u8 = 8;

pub(crate) fn images(out: &impl Print, profile: u8) -> Result<()> {
    let mut map = [0; MAP_LENGTH];
    for number in 0..IMAGES {
        mapped(out, Sample { profile, number }, &mut map)?;
    }
    Ok(())
}

fn mapped(out: &impl Print, sample: Sample, map: &mut [u8; MAP_LENGTH]) -> Result<()> {
    let mut bytes = [0; IMAGE_LENGTH];
    let image = &mut bytes[..machine::image_length(sample.profile)];
    sample.fill(image);
    let mut pixels = [0; FRAME_LENGTH];
    let answer = video::paint_frame_mapped(image, sample.state(), &mut pixels, map);
    println!(out;
        "{}map image {}: status {} character {} marked {} digest {}",
        Machine(sample.profile),
        sample.number,
        answer.status,
        answer.character,
        marked(map),
        Digest::of(map)
    )
}

pub(crate) fn lines(out: &impl Print) -> Result<()> {
    for number in [223, 224] {
        line(out, number)?;
    }
    Ok(())
}

fn line(out: &impl Print, number: usize) -> Result<()> {
    let image = [0; IMAGE_LENGTH];
    let mut pixels = [0; LINE_LENGTH];
    let mut map = [0; MAP_LENGTH];
    let state = video::fresh_state();
    let answer = video::paint_line_mapped(&image, state, number, &mut pixels, &mut map);
    println!(out;
        "map line {number}: status {} marked {}",
        answer.status,
        marked(&map)
    )
}

pub(crate) fn lengths(out: &impl Print) -> Result<()> {
    let mut short = [0; MAP_LENGTH - 1];
    let mut right = [0; MAP_LENGTH];
    let mut long = [0; MAP_LENGTH + 1];
    sized(out, &mut short)?;
    sized(out, &mut right)?;
    sized(out, &mut long)
}

fn sized(out: &impl Print, map: &mut [u8]) -> Result<()> {
    let image = [0; IMAGE_LENGTH];
    let mut pixels = [0; FRAME_LENGTH];
    let answer = video::paint_frame_mapped(&image, video::fresh_state(), &mut pixels, map);
    println!(out;
        "map length {}: status {} digest {}",
        map.len(),
        answer.status,
        Digest::of(map)
    )
}

// How many bits of the map are set.
fn marked(map: &[u8; MAP_LENGTH]) -> u64 {
    map.iter().map(|byte| u64::from(byte.count_ones())).sum()
}
