// The driver's tally record.
ghost use Rattle.std.specs.Prelude.{◌≡◌};
ghost use Rattle.totals.specs.Tally.{counted_of};

use totals::Tally;

// Adds a call to a port's tally record, which the driver keeps: the number that the call answered, the bytes that it took and skipped,
// the first error in the reply, and what the port held before and after. Each total stops at its largest figure. Any arguments are
// taken: the bytes of good messages grow by 0 at the least, only number 0 counts an error, none above 7, and a number above 1 changes
// nothing.
#[unsafe(no_mangle)]
pub extern "C" fn ketphiroj_count(
    tally: &mut Tally,
    number: u8,
    taken: usize,
    skipped: usize,
    error: u8,
    before: usize,
    after: usize,
)
    ensures { tally.new ≡ counted_of tally.old number taken skipped error before after }
{
    *tally = (*tally).counted(number, taken, skipped, error, before, after);
}
