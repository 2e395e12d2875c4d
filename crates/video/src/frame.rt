// One frame: 224 lines, each painted where it belongs in the lent frame.
ghost use Rattle.std.specs.Prelude.{◌≡◌, cond, length};
ghost use Rattle.machine.specs.Refusal.{status_of, refusal};
ghost use Rattle.machine.specs.Sizes.{frame_length};
ghost use Rattle.used_map.specs.Map.{marked};
ghost use Rattle.video.specs.Answer.{painted, frame_checks, frame_refusal, frame_answer, frame_contents, mapped_frame_refusal, mapped_frame_answer, mapped_frame_contents, mapped_frame_map};
ghost use Rattle.video.specs.Cell.{pixels, used};
ghost use Rattle.video.specs.Frame.{frame_cells};
ghost use Rattle.video.specs.State.{with_profile, after_frame};

use crate::address::{Scanline, video_block};
use crate::answer::{Painted, answer, check_picture, check_state, refused};
use crate::map::{BLOCK_MARKS, block_marks};
use crate::registers::Registers;
use crate::source::Source;
use crate::state::State;
use card::line_starts;
use machine::{FRAME_LENGTH, LINE_LENGTH, LINES, Refusal, check_output};
use used_map::MAP_LENGTH;

// One painted frame. Refusals 12, 1, 2, 3, 4.
pub fn paint_frame(memory: &[u8], state: State, frame: &mut [u8]) -> Painted
    ensures value { result ≡ frame_answer memory.now state frame.old }
    ensures frame_after { frame.new ≡ frame_contents memory.now state frame.old }
{
    match check_unmapped(memory, state, frame) {
        Ok(()) => {
            let block = video_block(memory, state.profile);
            Source { block, state }.fill_frame::<false>(frame, &mut [])
        }
        Err(reason) => refused(reason, state),
    }
}

// Refusals 12, 1, 2 for the frame. Frames and lines have each their lists of checks, as in the definitions; the checks take memory and state
// one by one, as C hands them to the entry points.
fn check_lent(memory: &[u8], state: State, frame: &[u8]) -> Result<(), Refusal>
    ensures { status_of result ≡ refusal (frame_checks memory.now state frame.now) }
{
    check_picture(state.profile, memory.len(), FRAME_LENGTH, frame.len())
}

fn check_unmapped(memory: &[u8], state: State, frame: &[u8]) -> Result<(), Refusal>
    ensures { status_of result ≡ frame_refusal memory.now state frame.now }
{
    check_lent(memory, state, frame)?;
    check_state(state)
}

// The same, and the used addresses marked in a map. Refusals 12, 1, 2 for the frame, 2 for the map, 3, 4.
pub fn paint_frame_mapped(memory: &[u8], state: State, frame: &mut [u8], map: &mut [u8]) -> Painted
    ensures value { result ≡ mapped_frame_answer memory.now state frame.old map.old }
    ensures frame_after { frame.new ≡ mapped_frame_contents memory.now state frame.old map.old }
    ensures map_after { map.new ≡ mapped_frame_map memory.now state frame.old map.old }
{
    match check_mapped(memory, state, frame, map) {
        Ok(()) => {
            let from = block_marks(state.profile);
            let end = from + BLOCK_MARKS;
            let block = video_block(memory, state.profile);
            Source { block, state }.fill_frame::<true>(frame, &mut map[from..end])
        }
        Err(reason) => refused(reason, state),
    }
}

fn check_mapped(memory: &[u8], state: State, frame: &[u8], map: &[u8]) -> Result<(), Refusal>
    ensures { status_of result ≡ mapped_frame_refusal memory.now state frame.now map.now }
{
    check_lent(memory, state, frame)?;
    check_output(MAP_LENGTH, map.len())?;
    check_state(state)
}

impl Source<'_> {
    // MARKED says whether the used addresses are marked.
    fn fill_frame<const MARKED: bool>(self, frame: &mut [u8], marks: &mut [u8]) -> Painted
        requires { length frame.old ≡ frame_length }
        ensures value { result ≡ painted (after_frame self.entry.state) (frame_cells self.entry.block.now (with_profile 1 self.entry.state)) }
        ensures frame_after { frame.new ≡ pixels (frame_cells self.entry.block.now (with_profile 1 self.entry.state)) }
        ensures marks_after { marks.new ≡ cond MARKED (marked marks.old (used (frame_cells self.entry.block.now (with_profile 1 self.entry.state)))) marks.old }
    {
        let starts = line_starts();
        let mut registers = Registers::at_line_start(u64::from(self.state.mode));
        let mut screen = 0;
        let mut character = 0;
        for line in 0..LINES {
            let from = LINE_LENGTH * line;
            let painted = self.fill_line::<MARKED>(
                Scanline::new(&starts, line),
                registers,
                &mut frame[from..from + LINE_LENGTH],
                marks,
            );
            registers = painted.registers;
            screen += painted.screen;
            character += painted.character;
        }
        answer(self.state.after_frame(), registers, screen, character)
    }
}
