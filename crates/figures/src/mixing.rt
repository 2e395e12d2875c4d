// A generator of numbers, and a digest of bytes by the same step.
use std::fmt;

const SEED: u64 = 0x9E3779B97F4A7C15;

// One step of xorshift, a permutation of the numbers of 64 bits.
pub(crate) fn step(x: u64) -> u64 {
    let a = x ^ (x << 13);
    let b = a ^ (a >> 7);
    b ^ (b << 17)
}

// Where the numbers of image i begin.
pub(crate) fn seed(i: u8) -> u64 {
    SEED + i as u64
}

// Another byte at each place, made from the one there and the next number.
pub(crate) fn replace<F: Fn(u8, u64) -> u8>(bytes: &mut [u8], seed: u64, byte_at: F)
    requires { F.IsAlwaysCallable byte_at }
{
    let mut x = seed;
    for byte in bytes.iter_mut() {
        x = step(x);
        *byte = byte_at(*byte, x);
    }
}

#[derive(Clone, Copy)]
pub(crate) struct Digest(u64);

// What a digest takes in.
pub(crate) trait Digested: Copy {
    fn add_to(self, digest: Digest) -> Digest;
}

impl Digested for u8 {
    fn add_to(self, digest: Digest) -> Digest {
        Digest(step(digest.0 ^ self as u64))
    }
}

// The low byte and then the high byte.
impl Digested for u16 {
    fn add_to(self, digest: Digest) -> Digest {
        let [low, high] = self.to_le_bytes();
        high.add_to(low.add_to(digest))
    }
}

impl Digest {
    pub(crate) fn new() -> Self {
        Digest(SEED)
    }

    pub(crate) fn of<T: Digested>(items: &[T]) -> Self {
        items
            .iter()
            .fold(Digest::new(), |digest, item| item.add_to(digest))
    }
}

impl fmt::Display for Digest {
    fn fmt<W: fmt::Write>(&self, f: &mut fmt::Formatter<W>) -> fmt::Result {
        let n = self.0;
        write!(f, "{n:016x}")
    }
}
