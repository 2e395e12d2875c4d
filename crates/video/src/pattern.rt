// A pattern of six bits in two colours, complemented or not, six pixels at a time: each is a byte of one word.
ghost use Rattle.std.specs.Prelude.{◌≡◌, cond, map, ◌≤◌, ◌-◌};
ghost use Rattle.machine.specs.Bits.{bit};
ghost use Rattle.video.specs.Internal.{pixel_bytes, spread_word};
ghost use Rattle.video.specs.Pattern.{pattern_colours, complemented};

use machine::{CELL_LENGTH, bit};

// Six copies of a pattern: after COPY_SHIFT the lowest bit of each pixel's byte is the pixel's own.
const COPIES: u64 = 0x20100008040201;

const COPY_SHIFT: u64 = 32;

// The fifth byte of a word is no pixel: with that gap the compiler stores the other six as one four and one two.
const ONES: u64 = 0x01010001010101;

const WHITES: u64 = 0x07070007070707;

// The bit of a screen byte that complements its cell.
const INVERSE: u64 = 128;

// A pattern is the low six bits of its byte.
pub(crate) fn pixels(ink: u64, paper: u64, pattern: u8, byte: u8) -> [u8; CELL_LENGTH]
    requires { (ink ≤ 7) × (paper ≤ 7) }
    ensures { result ≡ map (complemented byte) (pattern_colours ink paper pattern) }
{
    let set = spread(pattern);
    let word = ink * set + paper * (ONES - set);
    bytes_of(complement(byte, word))
}

// All six pixels are complemented at once: no byte borrows from the next.
fn complement(byte: u8, word: u64) -> u64
    requires { word ≤ 0x07070007070707 }
    ensures { result ≡ cond (bit 128 byte) (0x07070007070707 - word) word }
{
    if bit(INVERSE, u64::from(byte)) {
        WHITES - word
    } else {
        word
    }
}

// 1 in the byte of each pixel that is set, the leftmost pixel in the lowest byte.
fn spread(pattern: u8) -> u64
    ensures { result ≡ spread_word pattern }
{
    u64::from(pattern) * COPIES / COPY_SHIFT & ONES
}

// The bytes of a word that are pixels, the lowest first.
fn bytes_of(word: u64) -> [u8; CELL_LENGTH]
    ensures { result ≡ pixel_bytes word }
{
    let [first, second, third, fourth, _, fifth, sixth, _] = word.to_le_bytes();
    [first, second, third, fourth, fifth, sixth]
}
