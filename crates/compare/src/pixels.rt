// The pixels of two frames, compared at their places: how many of a line differ, how far they reach, and whether one of a cell does.
ghost use Rattle.std.specs.Prelude.{◌≡◌, ◌+◌, ◌*◌, ◌≤◌, ◌<◌, length};
ghost use Rattle.machine.specs.Sizes.{columns, lines, line_length, frame_length};

use machine::{CELL_LENGTH, LINE_LENGTH};

// Two frames, any byte as a pixel.
#[derive(Clone, Copy)]
pub(crate) struct Frames<'a> {
    pub first: &'a [u8],
    pub second: &'a [u8],
    ghost first_len: { length first.now ≡ frame_length },
    ghost second_len: { length second.now ≡ frame_length },
}

// One line of them.
#[derive(Clone, Copy)]
pub(crate) struct Line<'a> {
    pub frames: Frames<'a>,
    pub number: usize,
    ghost in_frame: { number < lines },
}

impl Frames<'_> {
    ghost use Rattle.compare.specs.Internal.{has_place};
    ghost use Rattle.compare.specs.Places.{differs};

    fn differ_at(self, place: usize) -> bool
        requires { place < frame_length }
        ensures { result ≡ differs self.entry.first.now self.entry.second.now place }
    {
        self.first[place] != self.second[place]
    }

    // Whether one of a cell's six pixels differs.
    pub(crate) fn cell_differs(self, cell: usize) -> bool
        requires { cell < columns * lines }
        ensures { result ≡ has_place self.entry.first.now self.entry.second.now cell }
    {
        let from = CELL_LENGTH * cell;
        (0..CELL_LENGTH).any(|k| self.differ_at(from + k))
    }
}

impl Line<'_> {
    ghost use mathlib.Core.List.{map, foldl};
    ghost use Rattle.std.specs.Prelude.{min, max};
    ghost use Rattle.compare.specs.Internal.{places_of};
    ghost use Rattle.compare.specs.Places.{x_of, differs};

    fn differs_at(self, x: usize) -> bool
        requires { x < line_length }
        ensures { result ≡ differs self.entry.frames.first.now self.entry.frames.second.now (line_length * self.entry.number + x) }
    {
        self.frames.differ_at(LINE_LENGTH * self.number + x)
    }

    // How many of the 240 pixels differ. The count stays in a byte, so that sixteen pixels are compared at once.
    pub(crate) fn differing_pixels(self) -> u8
        ensures { result ≡ length (places_of self.entry) }
    {
        let mut count = 0;
        for x in 0..LINE_LENGTH {
            count += self.differs_at(x) as u8;
        }
        count
    }

    // The first x that differs, if it lies before `left`, else `left`: only such an x makes a rectangle wider. Not inlined, as `last_x`:
    // so the loop over the cells keeps its values in registers.
    #[inline(never)]
    pub(crate) fn first_x(self, left: usize) -> usize
        requires { left ≤ line_length }
        ensures { result ≡ foldl min left (map x_of (places_of self.entry)) }
    {
        (0..left).find(|x| self.differs_at(*x)).unwrap_or(left)
    }

    // The last x that differs, if it lies behind `right`, else `right`.
    #[inline(never)]
    pub(crate) fn last_x(self, right: usize) -> usize
        ensures { result ≡ foldl max right (map x_of (places_of self.entry)) }
    {
        (right..LINE_LENGTH)
            .rfind(|x| self.differs_at(*x))
            .unwrap_or(right)
    }
}
