// What a comparison answers, and what it has found on the way there.
ghost use Rattle.std.specs.Prelude.{◌≡◌};
ghost use Rattle.machine.specs.Refusal.{number_of};
ghost use Rattle.compare.specs.Answer.{uncompared};
ghost use Rattle.compare.specs.Internal.{nothing, Small, reported};

use machine::{DONE, LINE_LENGTH, LINES, Refusal};

// The C interface's record: it has a status in place of a Result, and `empty` beside the rectangle in place of an Option.
#[repr(C)]
#[derive(Clone, Copy)]
pub struct Comparison {
    pub status: u8,
    pub empty: bool,
    pub first_x: u8,
    pub last_x: u8,
    pub first_line: u8,
    pub last_line: u8,
    pub pixels: u32,
    pub cells: u32,
}

// What the lines so far come to: the sides of the rectangle, and how many pixels and cells differ. Before the first difference the
// left side is 240 and the top 224, right and bottom are 0: the next line is searched up to them and folded in by `min` and `max`,
// where an Option of a rectangle would have a case of its own in each. The cells are all that differ, and so no length of the list.
#[derive(Clone, Copy)]
pub(crate) struct Found {
    pub left: usize,
    pub right: usize,
    pub top: usize,
    pub bottom: usize,
    pub pixels: usize,
    pub cells: usize,
}

pub(crate) fn refused(reason: Refusal) -> Comparison
    ensures { result ≡ uncompared (number_of reason) }
{
    Comparison {
        status: u8::from(reason),
        empty: false,
        first_x: 0,
        last_x: 0,
        first_line: 0,
        last_line: 0,
        pixels: 0,
        cells: 0,
    }
}

impl Found {
    pub(crate) fn nothing() -> Self
        ensures { result ≡ nothing }
    {
        Found {
            left: LINE_LENGTH,
            right: 0,
            top: LINES,
            bottom: 0,
            pixels: 0,
            cells: 0,
        }
    }

    pub(crate) fn report(self) -> Comparison
        requires { Small self }
        ensures { result ≡ reported self }
    {
        let empty = self.pixels == 0;
        let (first_x, first_line) = if empty { (0, 0) } else { (self.left, self.top) };
        Comparison {
            status: DONE,
            empty,
            first_x: first_x as u8,
            last_x: self.right as u8,
            first_line: first_line as u8,
            last_line: self.bottom as u8,
            pixels: self.pixels as u32,
            cells: self.cells as u32,
        }
    }
}
