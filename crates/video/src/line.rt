// One line: forty cells from left to right, then their pixels where they belong.
ghost use Rattle.std.specs.Prelude.{◌≡◌, ◌<◌, cond, map, length};
ghost use Rattle.machine.specs.Refusal.{status_of, refusal};
ghost use Rattle.machine.specs.Sizes.{lines, line_length};
ghost use Rattle.used_map.specs.Map.{marked};
ghost use Rattle.video.specs.Answer.{painted, cells_of_line, line_checks, line_refusal, line_answer, line_contents, mapped_line_refusal, mapped_line_answer, mapped_line_contents, mapped_line_map};
ghost use Rattle.video.specs.Cell.{Cell, pixels, used};
ghost use Rattle.video.specs.Internal.{block_ram, painted_line};
ghost use Rattle.video.specs.Line.{line_cells};
ghost use Rattle.video.specs.State.{with_profile};

use crate::address::{Scanline, video_block};
use crate::answer::{Painted, answer, check_picture, check_state, refused};
use crate::map::{BLOCK_MARKS, block_marks, mark_cell};
use crate::registers::Registers;
use crate::source::Source;
use crate::state::State;
use card::line_starts;
use machine::{CELL_LENGTH, COLUMNS, LINE_LENGTH, Refusal, check_line, check_output};
use used_map::MAP_LENGTH;

// The registers that a line leaves, and how many screen bytes and character bytes it used.
#[derive(Clone, Copy)]
pub(crate) struct PaintedLine {
    pub registers: Registers,
    pub screen: usize,
    pub character: usize,
}

// One painted line. Refusals 12, 1, 2, 3, 4, 5.
pub fn paint_line(memory: &[u8], state: State, line: usize, output: &mut [u8]) -> Painted
    ensures value { result ≡ line_answer memory.now state line output.old }
    ensures output_after { output.new ≡ line_contents memory.now state line output.old }
{
    match check_unmapped(memory, state, line, output) {
        Ok(()) => {
            let block = video_block(memory, state.profile);
            Source { block, state }.fill_single::<false>(line, output, &mut [])
        }
        Err(reason) => refused(reason, state),
    }
}

// Refusals 12, 1, 2 for the line. Frames and lines have each their lists of checks, as in the definitions; the checks take memory and state
// one by one, as C hands them to the entry points.
fn check_lent(memory: &[u8], state: State, output: &[u8]) -> Result<(), Refusal>
    ensures { status_of result ≡ refusal (line_checks memory.now state output.now) }
{
    check_picture(state.profile, memory.len(), LINE_LENGTH, output.len())
}

fn check_unmapped(memory: &[u8], state: State, line: usize, output: &[u8]) -> Result<(), Refusal>
    ensures { status_of result ≡ line_refusal memory.now state line output.now }
{
    check_lent(memory, state, output)?;
    check_state(state)?;
    check_line(line)
}

// The same, and the used addresses marked in a map. Refusals 12, 1, 2 for the line, 2 for the map, 3, 4, 5.
pub fn paint_line_mapped(
    memory: &[u8],
    state: State,
    line: usize,
    output: &mut [u8],
    map: &mut [u8],
) -> Painted
    ensures value { result ≡ mapped_line_answer memory.now state line output.old map.old }
    ensures output_after { output.new ≡ mapped_line_contents memory.now state line output.old map.old }
    ensures map_after { map.new ≡ mapped_line_map memory.now state line output.old map.old }
{
    match check_mapped(memory, state, line, output, map) {
        Ok(()) => {
            let from = block_marks(state.profile);
            let end = from + BLOCK_MARKS;
            let block = video_block(memory, state.profile);
            Source { block, state }.fill_single::<true>(line, output, &mut map[from..end])
        }
        Err(reason) => refused(reason, state),
    }
}

fn check_mapped(
    memory: &[u8],
    state: State,
    line: usize,
    output: &[u8],
    map: &[u8],
) -> Result<(), Refusal>
    ensures { status_of result ≡ mapped_line_refusal memory.now state line output.now map.now }
{
    check_lent(memory, state, output)?;
    check_output(MAP_LENGTH, map.len())?;
    check_state(state)?;
    check_line(line)
}

// MARKED says whether the used addresses are marked: without marks nothing is asked in a cell, and no map is lent. The line stays while
// the registers go from cell to cell, so the two are no struct.
impl Source<'_> {
    // A line by itself, which begins in the mode of the state.
    fn fill_single<const MARKED: bool>(
        self,
        line: usize,
        output: &mut [u8],
        marks: &mut [u8],
    ) -> Painted
        requires line_lt_lines { line < lines }
        requires output_len { length output.old ≡ line_length }
        ensures value { result ≡ painted self.entry.state (cells_of_line self.entry.block.now (with_profile 1 self.entry.state) line) }
        ensures output_after { output.new ≡ pixels (cells_of_line self.entry.block.now (with_profile 1 self.entry.state) line) }
        ensures marks_after { marks.new ≡ cond MARKED (marked marks.old (used (cells_of_line self.entry.block.now (with_profile 1 self.entry.state) line))) marks.old }
    {
        let before = Registers::at_line_start(u64::from(self.state.mode));
        let starts = line_starts();
        let scanline = Scanline::new(&starts, line);
        let painted = self.fill_line::<MARKED>(scanline, before, output, marks);
        answer(
            self.state,
            painted.registers,
            painted.screen,
            painted.character,
        )
    }

    pub(crate) fn fill_line<const MARKED: bool>(
        self,
        line: Scanline,
        before: Registers,
        output: &mut [u8],
        marks: &mut [u8],
    ) -> PaintedLine
        requires { length output.old ≡ line_length }
        ensures value { result ≡ painted_line (block_ram self.entry.block.now) self.entry.state.counter line.number before.mode }
        ensures output_after { output.new ≡ pixels (line_cells (block_ram self.entry.block.now) self.entry.state.counter line.number before.mode) }
        ensures marks_after { marks.new ≡ cond MARKED (marked marks.old (used (line_cells (block_ram self.entry.block.now) self.entry.state.counter line.number before.mode))) marks.old }
    {
        let mut cells = [[0u8; CELL_LENGTH]; COLUMNS];
        let painted = self.paint_cells::<MARKED>(line, before, &mut cells, marks);
        output.copy_from_slice(cells.as_flattened());
        painted
    }

    fn paint_cells<const MARKED: bool>(
        self,
        line: Scanline,
        before: Registers,
        cells: &mut [[u8; CELL_LENGTH]; COLUMNS],
        marks: &mut [u8],
    ) -> PaintedLine
        ensures value { result ≡ painted_line (block_ram self.entry.block.now) self.entry.state.counter line.number before.mode }
        ensures cells_after { cells.new ≡ map (λ (c : Cell). c.colours) (line_cells (block_ram self.entry.block.now) self.entry.state.counter line.number before.mode) }
        ensures marks_after { marks.new ≡ cond MARKED (marked marks.old (used (line_cells (block_ram self.entry.block.now) self.entry.state.counter line.number before.mode))) marks.old }
    {
        let mut registers = before.line_reset();
        let mut screen = 0;
        let mut character = 0;
        for (column, colours) in cells.iter_mut().enumerate() {
            let cell = self.paint_cell(line, column, registers);
            if MARKED {
                mark_cell(marks, cell);
            }
            *colours = cell.colours;
            registers = cell.registers;
            screen += 1;
            character += usize::from(cell.character.is_some());
        }
        PaintedLine {
            registers,
            screen,
            character,
        }
    }
}
