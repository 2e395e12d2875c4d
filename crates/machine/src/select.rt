// Tests and choices without a jump: both values are made before one is chosen.
ghost use Rattle.std.specs.Prelude.{◌≡◌, cond};
ghost use Rattle.machine.specs.Bits.{bit};

pub fn choose<T: Drop>(test: bool, yes: T, no: T) -> T
    ensures { result ≡ cond test yes no }
{
    if test { yes } else { no }
}

// Whether the bit of a weight is set: 128 is bit 7. No number has a bit of weight 0.
pub fn bit(weight: u64, value: u64) -> bool
    ensures { result ≡ bit weight value }
{
    weight != 0 && value / weight % 2 == 1
}
