// The test of one whole message, for the readers.
ghost use Rattle.std.specs.Prelude.{◌≡◌};
ghost use Rattle.refusal.specs.Refusal.{number_of};
ghost use Rattle.message.specs.Whole.{whole_number};

use crate::front::sums_right;
use crate::header::size_from;
use refusal::Refusal;

// Is `m` one whole message with right sums? Else it is refused as document 01's 21 or 22.
#[tactic(auto, unfolding(crate::specs::Whole::whole_number))]
pub fn check_message(m: &[u8]) -> Result<(), Refusal>
    ensures { number_of result ≡ whole_number m.now }
{
    let [0xA5, 0xA5, _, l, ..] = m else {
        return Err(Refusal::NotWhole);
    };
    let n = size_from(*l);
    if m.len() != n {
        return Err(Refusal::NotWhole);
    }
    if sums_right(m, 0, n) {
        Ok(())
    } else {
        Err(Refusal::Sums)
    }
}
