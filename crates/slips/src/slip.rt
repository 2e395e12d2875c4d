// The sideways slip at which a grabbed line disagrees least with the line of the reference.
ghost use Rattle.std.specs.Prelude.{◌≡◌, ◌<◌, length};
ghost use Rattle.machine.specs.Refusal.{number_of, status_of};
ghost use Rattle.machine.specs.Sizes.{line_length};
ghost use Rattle.slips.specs.Slip.{IsSlip, slip_refusal, unsearched, is_outside, disagrees, disagreements, GivesBest, IsSlipAnswer};

use machine::{DONE, LINE_LENGTH, Refusal, check_output};

// The slips that are tried, in pixels.
const FIRST_SLIP: isize = -12;

const LAST_SLIP: isize = 12;

// The C interface's record: it has a status in place of a Result.
#[repr(C)]
#[derive(Clone, Copy)]
pub struct Slip {
    pub status: u8,
    pub slip: i8,
    pub disagreements: u16,
}

// Two lines, any byte as a pixel.
#[derive(Clone, Copy)]
struct Lines<'a> {
    reference: &'a [u8],
    grabbed: &'a [u8],
    ghost reference_len: { length reference.now ≡ line_length },
    ghost grabbed_len: { length grabbed.now ≡ line_length },
}

// A slip, and how many pixels disagree at it: a usize, since with a u16 the search took twice as long.
#[derive(Clone, Copy)]
struct Candidate {
    slip: isize,
    disagreements: usize,
}

// Two lines, any byte as a pixel. Refusal 2 for either length.
pub fn find_slip(reference: &[u8], grabbed: &[u8]) -> Slip
    ensures { IsSlipAnswer reference.now grabbed.now result }
{
    match check_lengths(reference.len(), grabbed.len()) {
        Ok(()) => Lines { reference, grabbed }.best_slip(),
        Err(reason) => refused(reason),
    }
}

fn check_lengths(reference: usize, grabbed: usize) -> Result<(), Refusal>
    ensures { status_of result ≡ slip_refusal reference grabbed }
{
    check_output(LINE_LENGTH, reference)?;
    check_output(LINE_LENGTH, grabbed)
}

fn refused(reason: Refusal) -> Slip
    ensures { result ≡ unsearched (number_of reason) }
{
    Slip {
        status: u8::from(reason),
        slip: 0,
        disagreements: 0,
    }
}

impl Lines<'_> {
    // The slips are tried from -12 up: of -n and n with as many disagreements the first stays.
    fn best_slip(self) -> Slip
        ensures { GivesBest self.entry.reference.now self.entry.grabbed.now result }
    {
        let mut best = self.candidate(FIRST_SLIP);
        for slip in FIRST_SLIP + 1..=LAST_SLIP {
            let next = self.candidate(slip);
            if next.is_better(best) {
                best = next;
            }
        }
        Slip {
            status: DONE,
            slip: best.slip as i8,
            disagreements: best.disagreements as u16,
        }
    }

    fn candidate(self, slip: isize) -> Candidate
        requires { IsSlip slip }
        ensures slip { result.slip ≡ slip }
        ensures count { result.disagreements ≡ disagreements self.entry.reference.now self.entry.grabbed.now slip }
    {
        let mut count = 0;
        for x in 0..LINE_LENGTH {
            count += self.disagrees(x, slip) as usize;
        }
        Candidate {
            slip,
            disagreements: count,
        }
    }

    // Whether the grabbed line has no pixel x + slip, or another byte there than the reference at x.
    fn disagrees(self, x: usize, slip: isize) -> bool
        requires on_line { x < line_length }
        requires is_slip { IsSlip slip }
        ensures { result ≡ disagrees self.entry.reference.now self.entry.grabbed.now slip x }
    {
        let at = x as isize + slip;
        if is_outside(at) {
            return true;
        }
        self.reference[x] != self.grabbed[at as usize]
    }
}

impl Candidate {
    ghost use Rattle.slips.specs.Internal.{is_better};

    // Fewer disagreements, or as many and nearer zero.
    fn is_better(self, best: Candidate) -> bool
        ensures { result ≡ is_better self.slip self.disagreements best.slip best.disagreements }
    {
        (self.disagreements, self.slip.unsigned_abs())
            < (best.disagreements, best.slip.unsigned_abs())
    }
}

fn is_outside(at: isize) -> bool
    ensures { result ≡ is_outside at }
{
    (at < 0) | (at >= LINE_LENGTH as isize)
}
