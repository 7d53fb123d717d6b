// Keeping bytes in a port's array, in place.
ghost use Rattle.std.specs.Prelude.{◌≡◌, ◌++◌, length, take, drop, replicate, ◌+◌, ◌-◌, ◌≤◌};
ghost use Rattle.board.specs.Port.{padded};

use message::copy_front;

// Brings the `n` bytes from `from` on of the first `held` and then the chunk to the front: those held, then those of the
// chunk, so that no byte asks where it comes from.
fn shift(bytes: &mut [u8; 260], held: usize, chunk: &[u8], from: usize, n: usize)
    requires { (held ≤ 260) × (from + n ≤ held + length chunk.now) × (n ≤ 260) }
    ensures { bytes.new ≡ take n (drop from (take held bytes.old ++ chunk.now)) ++ drop n bytes.old }
{
    // most feeds keep nothing
    if n == 0 {
        return;
    }
    if held <= from {
        let past = from - held;
        copy_front(&chunk[past..past + n], &mut bytes[..n]);
        return;
    }
    let kept = held - from;
    if n <= kept {
        bytes.copy_within(from..from + n, 0);
        return;
    }
    bytes.copy_within(from..held, 0);
    copy_front(&chunk[..n - kept], &mut bytes[kept..n]);
}

// Keeps the bytes from..to of those held and then the chunk, with zeros past them.
#[inline(never)] // a feed takes less stack so (docs/DECISIONS.md)
pub(crate) fn keep_part(bytes: &mut [u8; 260], held: usize, chunk: &[u8], from: usize, to: usize)
    requires { (held ≤ 260) × (from ≤ to) × (to ≤ held + length chunk.now) × (to - from ≤ 260) }
    ensures { bytes.new ≡ padded (take (to - from) (drop from (take held bytes.old ++ chunk.now))) }
{
    let n = to - from;
    shift(bytes, held, chunk, from, n);
    bytes[n..].fill(0);
}
