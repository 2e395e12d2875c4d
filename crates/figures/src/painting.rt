// The figures of lines and frames that are not proved: the last line, the last count, the wrong lengths of memory.
use machine::{
    FRAME_LENGTH, IMAGE_LENGTH, IMAGE_LENGTH_16K, LINE_LENGTH, PROFILE_16K, PROFILE_48K,
};
use std::io::{Print, Result};
use video::State;

pub(crate) fn lines(out: &impl Print) -> Result<()> {
    for number in [223, 224] {
        line(out, number)?;
    }
    Ok(())
}

fn line(out: &impl Print, number: usize) -> Result<()> {
    let image = [0; IMAGE_LENGTH];
    let mut pixels = [0; LINE_LENGTH];
    let answer = video::paint_line(&image, video::fresh_state(), number, &mut pixels);
    println!(out;
        "line {number}: status {} screen {}",
        answer.status, answer.screen
    )
}

pub(crate) fn counters(out: &impl Print) -> Result<()> {
    for counter in [31, 32] {
        frame(out, counter)?;
    }
    Ok(())
}

fn frame(out: &impl Print, counter: u8) -> Result<()> {
    let image = [0; IMAGE_LENGTH];
    let state = State {
        counter,
        ..video::fresh_state()
    };
    let mut frame = [0; FRAME_LENGTH];
    let answer = video::paint_frame(&image, state, &mut frame);
    let after = answer.state;
    println!(out;
        "counter {counter}: status {} counter {}",
        answer.status, after.counter
    )
}

pub(crate) fn memories(out: &impl Print) -> Result<()> {
    let bytes = [0; IMAGE_LENGTH + 1];
    for image in [
        &bytes[..0],
        &bytes[..IMAGE_LENGTH - 1],
        &bytes[..IMAGE_LENGTH],
        &bytes[..],
    ] {
        memory(out, PROFILE_48K, image)?;
    }
    Ok(())
}

// Each profile takes its own length alone, and there are two profiles.
pub(crate) fn profiles(out: &impl Print) -> Result<()> {
    let bytes = [0; IMAGE_LENGTH];
    for (profile, image) in [
        (PROFILE_16K, &bytes[..0]),
        (PROFILE_16K, &bytes[..IMAGE_LENGTH_16K - 1]),
        (PROFILE_16K, &bytes[..IMAGE_LENGTH_16K]),
        (PROFILE_16K, &bytes[..IMAGE_LENGTH_16K + 1]),
        (PROFILE_16K, &bytes[..]),
        (PROFILE_48K, &bytes[..IMAGE_LENGTH_16K]),
        (2, &bytes[..]),
    ] {
        print!(out; "profile {profile} ")?;
        memory(out, profile, image)?;
    }
    Ok(())
}

fn memory(out: &impl Print, profile: u8, image: &[u8]) -> Result<()> {
    let state = State {
        profile,
        ..video::fresh_state()
    };
    let mut frame = [0; FRAME_LENGTH];
    let answer = video::paint_frame(image, state, &mut frame);
    println!(out; "memory {}: status {}", image.len(), answer.status)
}
