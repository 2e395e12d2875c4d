// The figures of document 01 that are run, the decode of every address, and digests of generated frames, a line each; then the same
// of the 16K machine; then maps of used addresses, comparisons of frames, slips of lines, and the card of line starts. Each function that
// prints is handed `out`: a struct round the handle would be handed on in its place.
#![tactic(auto)]

mod comparing;
mod decoding;
mod generated;
mod mapping;
mod mixing;
mod painting;
mod printing;
mod report;
mod slipping;

use machine::{PROFILE_16K, PROFILE_48K};
use std::io::Result;

fn main(rt: HostRuntime) -> Result<()> {
    let out = &rt;
    painting::lines(out)?;
    painting::counters(out)?;
    painting::memories(out)?;
    decoding::settings(out)?;
    generated::frames(out, PROFILE_48K)?;
    painting::profiles(out)?;
    decoding::without_controller(out, PROFILE_16K)?;
    generated::frames(out, PROFILE_16K)?;
    mapping::images(out, PROFILE_48K)?;
    mapping::images(out, PROFILE_16K)?;
    mapping::lines(out)?;
    mapping::lengths(out)?;
    comparing::pairs(out)?;
    comparing::lengths(out)?;
    slipping::moves(out)?;
    slipping::widths(out)?;
    slipping::lengths(out)?;
    printing::halves(out)
}
