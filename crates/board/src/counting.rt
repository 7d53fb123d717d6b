// Counting a call in totals that are lent as a row: those of bytes, then those of messages by error.
ghost use Rattle.std.specs.Prelude.{◌≡◌, length, ◌+◌, ◌≤◌, ◌<◌};
ghost use Rattle.totals.specs.Tally.{counted_of, row_of, tally_in};
ghost use Rattle.totals.specs.Row.{plus_at};

use crate::feeding::Stepped;
use totals::plus_up_to;

// Adds to one total of a row.
fn add_to(totals: &mut [u64], at: usize, n: usize)
    requires { at < length totals.old }
    ensures { totals.new ≡ plus_at at n totals.old }
{
    let total = totals[at];
    totals[at] = plus_up_to(total, n);
}

// Adds an accepted call to the totals of its port, which held `before` bytes. A call of the board adds up: what it skipped, and what is
// held after it, was held before it or taken. So the bytes of a good message are a difference that fits, and no part of it needs a test
// as in a driver's record.
pub(crate) fn add_call(totals: &mut [u64], s: Stepped, before: usize)
    requires { (length totals.old ≡ 11) × (s.number ≤ 1) × (s.skipped + s.held ≤ s.taken + before) × (s.taken + before < 18446744073709551616) }
    ensures { totals.new ≡ row_of (counted_of (tally_in totals.old) s.number s.taken s.skipped s.error before s.held) }
{
    add_to(totals, 0, s.taken);
    add_to(totals, 1, s.skipped);
    add_to(totals, 2, s.taken + before - s.skipped - s.held);
    if s.number == 0 {
        if s.error < 8 {
            add_to(totals, 3 + s.error as usize, 1);
        }
    }
}
