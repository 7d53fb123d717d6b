// The verdict at the front of unread bytes, and the seek for the next message, in one slice.
ghost use Rattle.std.specs.Prelude.{◌≡◌, ◌+◌, ◌≤◌, length, take, drop};
ghost use Rattle.stream.specs.Seek.{seek};
ghost use Rattle.stream.specs.Silence.{end_of, up_to};
ghost use Rattle.message.specs.Message.{sums_right};
ghost use Rattle.message.specs.Front.{front};

use crate::fletcher::Sums;
use crate::header::Opening;
use crate::skips::past_skips;
use crate::unread::Unread;
use stream::{Sought, Verdict};

// Whether the last two of the `n` bytes from `at` are the sums of those before them.
pub(crate) fn sums_right(s: &[u8], at: usize, n: usize) -> bool
    requires { (2 ≤ n) × (at + n ≤ length s.now) }
    ensures { result ≡ sums_right (take n (drop at s.now)) }
{
    let e = at + (n - 2);
    let t = Sums::new().over(&s[at..e]);
    s[e] == t.f1 && s[e + 1] == t.f2
}

// What stands at the front of the bytes of `s` from `at` on.
pub fn front_at(s: &[u8], at: usize) -> Verdict
    ensures { result ≡ front (drop at s.now) }
{
    if s.len() <= at {
        return Verdict::Undecided;
    }
    match Unread::from(&s[at..]).opening() {
        Opening::NoMessage => Verdict::Skip,
        Opening::Incomplete => Verdict::Undecided,
        Opening::Complete(n) => Verdict::Whole(n, sums_right(s, at, n)),
    }
}

// Where the seek through `s` ends. Where a mark ends the bytes (`ended`), none is waited for: what is undecided is skipped.
pub fn seek(s: &[u8], ended: bool) -> Sought
    ensures { result ≡ seek (up_to (end_of ended) front) s.now }
{
    let mut at = 0;
    loop {
        match front_at(s, at) {
            Verdict::Skip => at = past_skips(s, at + 1),
            Verdict::Undecided if ended && at < s.len() => at += 1,
            Verdict::Undecided => return Sought::Starved(at),
            Verdict::Whole(n, good) => return Sought::Found(at, n, good),
        }
    }
}
