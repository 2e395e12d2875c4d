// Paints standard input, the memory image, from the fresh state and writes the frame, or the refusal.
// Reading and writing only: the texts are made by the functions of text.rt.
#![tactic(auto)]

mod text;

ghost use Rattle.std.specs.Prelude.{◌≡◌, ◌≤◌, length, take, IfOk, IfSome, OnOk};
ghost use Rattle.std.specs.Io.KnownBytes.{Appends, IsAtEnd};
ghost use Rattle.listing.specs.Text.{frame_text, listing_text};

use machine::{DONE, FRAME_LENGTH, IMAGE_LENGTH, LINE_LENGTH};
use std::io::{ErrorKind, Read, Result, Write};
use video::Painted;

// One byte more than an image, which tells a longer input from an image.
const MOST_READ: usize = IMAGE_LENGTH + 1;

// Reads straight into the bytes, each time as much as they have room for, until they are full or the input ends. Answers how many came.
fn read_full<R: Read>(input: &mut R, bytes: &mut [u8]) -> Result<usize>
    ensures bound { IfOk result (λ size. size ≤ length bytes.new) }
    ensures came { IfOk result (λ size. IfSome (R.remaining input.old) (λ known. take size bytes.new ≡ take (length bytes.new) known)) }
{
    let mut size = 0;
    while size < bytes.len() {
        let count = input.read(&mut bytes[size..])?;
        if count == 0 {
            break;
        }
        size += count;
    }
    Ok(size)
}

// Reads to the end and keeps nothing. A proved loop has to end, so its turns go to a number that no run uses up.
fn drop_rest<R: Read>(input: &mut R) -> Result<()>
    ensures { OnOk result (IsAtEnd (R.remaining input.new)) }
{
    let mut dropped = [0u8; 4_096];
    for _ in 0..u64::MAX {
        if input.read(&mut dropped)? == 0 {
            return Ok(());
        }
    }
    Err(ErrorKind::TimedOut.into())
}

// Reads the input to its end, so that its writer is not cut off, and keeps what tells whether it is an image.
fn read_image<R: Read>(input: &mut R, image: &mut [u8; MOST_READ]) -> Result<usize>
    ensures bound { IfOk result (λ size. size ≤ MOST_READ) }
    ensures kept { IfOk result (λ size. IfSome (R.remaining input.old) (λ bytes. take size image.new ≡ take MOST_READ bytes)) }
{
    let size = read_full(input, image)?;
    if size == MOST_READ {
        drop_rest(input)?;
    }
    Ok(size)
}

// The lines of the frame.
fn write_frame<W: Write>(out: &mut W, frame: &[u8; FRAME_LENGTH]) -> Result<()>
    ensures { OnOk result (Appends (W.contents out.old) (W.contents out.new) (frame_text frame.now)) }
{
    let (lines, _) = frame.as_chunks::<LINE_LENGTH>();
    for pixels in lines {
        out.write_all(text::line_text(pixels).as_bytes())?;
    }
    Ok(())
}

// The frame and the closing line, or the refusal alone. The status is a number since Painted is the record of the C interface.
fn write_listing<W: Write>(out: &mut W, answer: Painted, frame: &[u8; FRAME_LENGTH]) -> Result<()>
    ensures { OnOk result (Appends (W.contents out.old) (W.contents out.new) (listing_text answer frame.now)) }
{
    match answer.status {
        DONE => {
            write_frame(out, frame)?;
            out.write_all(text::closing_line(answer).as_bytes())
        }
        status => out.write_all(text::refusal_line(status).as_bytes()),
    }
}

fn main(rt: HostRuntime) -> Result<()> {
    let mut image = [0u8; MOST_READ];
    let size = read_image(&mut rt.stdin(), &mut image)?;
    let mut frame = [0u8; FRAME_LENGTH];
    let answer = video::paint_frame(&image[..size], video::fresh_state(), &mut frame);
    write_listing(&mut rt.stdout(), answer, &frame)
}
