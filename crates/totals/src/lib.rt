// The totals of a port since the start: in the board, and in a driver's tally record.
#![tactic(auto)]

ghost use Rattle.std.specs.Prelude.{◌≡◌};
ghost use Rattle.totals.specs.Tally.{plus_up_to, zero_tally, good_bytes, counted_of};

// Each total stops at its largest figure.
#[repr(C)]
#[derive(Clone, Copy, PartialEq, Eq)]
pub struct Tally {
    // bytes taken from the chunks, bytes that the scan skipped, and bytes of good messages
    pub taken: u64,
    pub skipped: u64,
    pub good: u64,
    // messages by the first error in the reply, 0 to 7
    pub errors: [u64; 8],
}

// The sum, or the largest figure where it does not fit.
#[tactic(auto, unfolding(crate::specs::Tally::plus_up_to))]
pub fn plus_up_to(total: u64, n: usize) -> u64
    ensures { result ≡ plus_up_to total n }
{
    // Kept: (d) the cast: std has no u64::from(usize), and u64::try_from can fail
    total.saturating_add(n as u64)
}

// A total with the good bytes of a call more: taken plus before, less skipped, less after, at least 0. They are made of differences alone,
// since of what a driver passes a sum might not fit: what was taken beyond the skipped, and what was held before beyond what is held
// after, each less what the other lacks.
fn plus_good(total: u64, taken: usize, skipped: usize, before: usize, after: usize) -> u64
    ensures { result ≡ plus_up_to total (good_bytes taken skipped before after) }
{
    let more = taken
        .saturating_sub(skipped)
        .saturating_sub(after.saturating_sub(before));
    let rest = before
        .saturating_sub(after)
        .saturating_sub(skipped.saturating_sub(taken));
    plus_up_to(plus_up_to(total, more), rest)
}

impl Tally {
    // the totals as a row: those of bytes, then those of messages by error
    pub const ROW: usize = 11;

    // Zero at the start.
    pub fn new() -> Self
        ensures { result ≡ zero_tally }
    {
        Tally {
            taken: 0,
            skipped: 0,
            good: 0,
            errors: [0u64; 8],
        }
    }

    // The totals after a call that answered `number`, took and skipped so many bytes and whose reply has the first error `error`; its port
    // held `before` bytes before it and `after` bytes after it.
    // Kept: (d) no struct for these six: each caller has them apart, as `ketphiroj_count` of the C interface, or in a record of another
    // shape, as the board's step, and would name all six once more to build it.
    pub fn counted(
        self,
        number: u8,
        taken: usize,
        skipped: usize,
        error: u8,
        before: usize,
        after: usize,
    ) -> Tally
        ensures { result ≡ counted_of self number taken skipped error before after }
    {
        if 1 < number {
            return self;
        }
        let mut t = self;
        t.good = plus_good(t.good, taken, skipped, before, after);
        t.taken = plus_up_to(t.taken, taken);
        t.skipped = plus_up_to(t.skipped, skipped);
        if number == 0 && error < 8 {
            let e = usize::from(error);
            t.errors[e] = plus_up_to(t.errors[e], 1);
        }
        t
    }
}
