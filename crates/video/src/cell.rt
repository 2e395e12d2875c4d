// One cell: a screen byte becomes six colours.
ghost use Rattle.std.specs.Prelude.{◌≡◌, ◌<◌};
ghost use Rattle.machine.specs.Sizes.{columns};
ghost use Rattle.video.specs.Cell.{cell};
ghost use Rattle.video.specs.Internal.{block_ram, painted_cell};

use crate::address::Scanline;
use crate::registers::{Registers, is_attribute};
use crate::source::Source;
use machine::{CELL_LENGTH, choose};

// The registers that a cell leaves, its colours, and what it used: where its screen byte is, and where its character byte, if it used one.
#[derive(Clone, Copy)]
pub(crate) struct PaintedCell {
    pub registers: Registers,
    pub colours: [u8; CELL_LENGTH],
    pub screen: usize,
    pub character: Option<usize>,
}

impl Source<'_> {
    // A cell uses one screen byte. A picture's pattern is in the screen byte itself or in a character byte: the address is
    // chosen, so that no other byte is read.
    pub(crate) fn paint_cell(self, line: Scanline, column: usize, before: Registers) -> PaintedCell
        requires { column < columns }
        ensures { result ≡ painted_cell (cell (block_ram self.entry.block.now) self.entry.state.counter line.number column before) }
    {
        let counter = self.state.counter;
        let mode = before.mode;
        let screen = line.screen_address(column, mode);
        let byte = self.block[screen];
        if is_attribute(byte) {
            let mut after = before;
            after.latch(byte);
            return PaintedCell {
                registers: after,
                colours: after.paint_colours(counter, 0, byte),
                screen,
                character: None,
            };
        }
        let bitmap = line.is_bitmap(mode);
        let definition = line.character_address(before, byte);
        let character = choose(bitmap, None, Some(definition));
        let pattern = character.unwrap_or(screen);
        PaintedCell {
            registers: before,
            colours: before.paint_colours(counter, self.block[pattern], byte),
            screen,
            character,
        }
    }
}
