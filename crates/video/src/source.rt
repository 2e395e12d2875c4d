// What a painting is made from.
ghost use Rattle.machine.specs.Image.{IsImage};
ghost use Rattle.video.specs.State.{Within};

use crate::state::State;

// The block of RAM that video reads, as the image of a 16K machine, and the state that a painting begins with. Each entry point
// makes it past its checks: a function that did would ask for both facts again.
#[derive(Clone, Copy)]
pub(crate) struct Source<'a> {
    pub block: &'a [u8],
    pub state: State,
    ghost is_image: { IsImage 1 block.now },
    ghost is_within: { Within state },
}
