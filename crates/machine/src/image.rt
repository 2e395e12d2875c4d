// The memory image of a profile: its length, and which of its bytes an address reaches.
ghost use Rattle.std.specs.Prelude.{◌≡◌, ◌≤◌};
ghost use Rattle.machine.specs.Image.{is_16k, image_length, folded};

use crate::select::choose;
use crate::{IMAGE_LENGTH, IMAGE_LENGTH_16K, PROFILE_16K};

pub fn image_length(profile: u8) -> usize
    ensures { result ≡ image_length profile }
{
    choose(is_16k(profile), IMAGE_LENGTH_16K, IMAGE_LENGTH)
}

// The second clause follows from the first; sums of addresses are bounded by it.
pub fn fold(profile: u8, address: usize) -> usize
    ensures value { result ≡ folded profile address }
    ensures upper_bound { result ≤ address }
{
    choose(is_16k(profile), address % IMAGE_LENGTH_16K, address)
}

pub(crate) fn is_16k(profile: u8) -> bool
    ensures { result ≡ is_16k profile }
{
    profile == PROFILE_16K
}
