// The text of the listing: a line of the frame, the closing line, the line of a refusal.
// No Display: it promises its text only where `fmt` answers Ok, and the clauses of closing_line and refusal_line hold on every input.
ghost use Rattle.std.specs.Prelude.{◌≡◌, ◌+◌, ◌≤◌, ◌++◌, length};
ghost use Rattle.arrayvec.specs.ArrayString.{array_string_len};
ghost use Rattle.listing.specs.Text.{line_text, closing_text, refused_text};

use arrayvec::ArrayString;
use itoa::{Buffer, Integer};
use machine::LINE_LENGTH;
use video::Painted;

// A line has a digit for each pixel, and a line feed.
const LINE_TEXT_LENGTH: usize = LINE_LENGTH + 1;

// The longest closing line: its words, 3 digits for the mode and the counter, 10 for each count, a line feed.
// That is (5 + 3) + (9 + 3) + (8 + 10) + (11 + 10) + 1.
const CLOSING_LENGTH: usize = 60;

// The longest refusal: its word, 3 digits for the status, a line feed. That is (8 + 3) + 1.
const REFUSAL_LENGTH: usize = 12;

// A pixel is a colour, 0 to 7.
const COLOURS: u8 = 8;

// A digit for each pixel, and a line feed. The remainder makes a digit of any byte.
pub(crate) fn line_text(pixels: &[u8; LINE_LENGTH]) -> ArrayString<LINE_TEXT_LENGTH>
    ensures { result.bytes ≡ line_text pixels.now }
{
    let mut text = ArrayString::new();
    for pixel in pixels {
        text.push(char::from(b'0' + pixel % COLOURS));
    }
    text.push('\n');
    text
}

// A word and the number after it, with no zero in front.
fn push_field<I: Integer, const CAP: usize>(text: &mut ArrayString<CAP>, word: &str, n: I)
    requires { array_string_len text.old + length word.now + I.MAX_STR_LEN ≤ CAP }
    ensures bytes { text.new.bytes ≡ text.old.bytes ++ (word.now ++ I.text n) }
    ensures upper_bound { array_string_len text.new ≤ array_string_len text.old + length word.now + I.MAX_STR_LEN }
{
    let mut digits = Buffer::new();
    text.push_str(word);
    text.push_str(digits.format(n));
}

// The state after the frame, and the screen and character bytes used.
#[tactic(auto, using(crate::proofs::Decimal::decimal_is))]
pub(crate) fn closing_line(answer: Painted) -> ArrayString<CLOSING_LENGTH>
    ensures { result.bytes ≡ closing_text answer }
{
    let mut text = ArrayString::new();
    push_field(&mut text, "mode ", answer.state.mode);
    push_field(&mut text, " counter ", answer.state.counter);
    push_field(&mut text, " screen ", answer.screen);
    push_field(&mut text, " character ", answer.character);
    text.push_str("\n");
    text
}

// The number of the refusal.
#[tactic(auto, using(crate::proofs::Decimal::decimal_is))]
pub(crate) fn refusal_line(status: u8) -> ArrayString<REFUSAL_LENGTH>
    ensures { result.bytes ≡ refused_text status }
{
    let mut text = ArrayString::new();
    push_field(&mut text, "refused ", status);
    text.push_str("\n");
    text
}
