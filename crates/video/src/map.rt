// What a painting marks in a map of used addresses.
ghost use Rattle.std.specs.Prelude.{◌≡◌, ◌≤◌, ◌+◌, ◌/◌};
ghost use Rattle.machine.specs.Image.{folded};
ghost use Rattle.used_map.specs.Map.{byte_bits, map_length, marked};
ghost use Rattle.video.specs.Address.{video_block};
ghost use Rattle.video.specs.Internal.{used_by, block_marks};

use crate::address::BLOCK;
use crate::cell::PaintedCell;
use machine::{IMAGE_LENGTH_16K, fold};
use used_map::{BYTE_BITS, mark};

// The bytes of a map that have the bits of the block that video reads.
pub(crate) const BLOCK_MARKS: usize = IMAGE_LENGTH_16K / BYTE_BITS;

// Where in a map they begin. The second clause follows from the first; the end of the part is bounded by it. The
// profile is a number, as `fold` takes it. The entry points cut the part themselves: a function that lent it would have to say what it lends.
pub(crate) fn block_marks(profile: u8) -> usize
    ensures value { result ≡ folded profile video_block / byte_bits }
    ensures block_marks_bound { result + block_marks ≤ map_length }
{
    fold(profile, BLOCK) / BYTE_BITS
}

// The addresses that a cell used.
pub(crate) fn mark_cell(map: &mut [u8], cell: PaintedCell)
    ensures { map.new ≡ marked map.old (used_by cell) }
{
    mark(map, cell.screen);
    if let Some(address) = cell.character {
        mark(map, address);
    }
}
