// The verdict and the seek over bytes that are held and then a chunk, as one row of bytes that are never copied together.
ghost use Rattle.std.specs.Prelude.{◌≡◌, ◌+◌, ◌-◌, ◌<◌, ◌≤◌, ◌++◌, length, take, drop};
ghost use Rattle.stream.specs.Seek.{beyond, seek};
ghost use Rattle.stream.specs.Silence.{end_of, up_to};
ghost use Rattle.message.specs.Fletcher.{sums};
ghost use Rattle.message.specs.Message.{sums_right};
ghost use Rattle.message.specs.Front.{front};
ghost use Rattle.message.specs.Unread.{bytes_of};

use crate::fletcher::Sums;
use crate::front::{front_at, seek};
use crate::header::Opening;
use crate::skips::past_skips;
use crate::unread::Unread;
use stream::{Sought, Verdict};

impl<'a> Unread<'a> {
    // The sums of the bytes from..to, which begin among the held bytes or right behind them.
    fn sums(self, from: usize, to: usize) -> Sums
        requires { (from ≤ to) × (from ≤ length self.held.now) × (to ≤ length self.held.now + length self.chunk.now) }
        ensures { result ≡ sums (take (to - from) (drop from (bytes_of self.entry))) }
    {
        let held = self.held;
        let h = held.len();
        if to <= h {
            return Sums::new().over(&held[from..to]);
        }
        let rest = to - h;
        Sums::new().over(&held[from..]).over(&self.chunk[0..rest])
    }

    // Whether the last two of the `n` bytes from `at` are the sums of those before them.
    fn sums_right(self, at: usize, n: usize) -> bool
        requires { (2 ≤ n) × (at ≤ length self.held.now) × (at + n ≤ length self.held.now + length self.chunk.now) }
        ensures { result ≡ sums_right (take n (drop at (bytes_of self.entry))) }
    {
        let e = at + (n - 2);
        let t = self.sums(at, e);
        if self.byte(e) == t.f1 {
            self.byte(e + 1) == t.f2
        } else {
            false
        }
    }

    // What stands at the front of its bytes from `at` on.
    pub fn front(self, at: usize) -> Verdict
        ensures { result ≡ front (drop at (bytes_of self.entry)) }
    {
        let h = self.held.len();
        if h <= at {
            return front_at(self.chunk, at - h);
        }
        match self.after(at).opening() {
            Opening::NoMessage => Verdict::Skip,
            Opening::Incomplete => Verdict::Undecided,
            Opening::Complete(n) => Verdict::Whole(n, self.sums_right(at, n)),
        }
    }

    // Where the seek through its bytes ends, with a mark behind them (`ended`) or without.
    pub fn seek(self, ended: bool) -> Sought
        ensures { result ≡ seek (up_to (end_of ended) front) (bytes_of self.entry) }
    {
        let held = self.held;
        let h = held.len();
        let mut at = 0;
        while at < h {
            match self.front(at) {
                Verdict::Skip => {
                    at = past_skips(held, at + 1);
                }
                Verdict::Undecided => {
                    if ended {
                        at += 1;
                    } else {
                        return Sought::Starved(at);
                    }
                }
                Verdict::Whole(n, good) => {
                    return Sought::Found(at, n, good);
                }
            }
        }
        seek_after(h, self.chunk, ended)
    }
}

// Where the seek through `chunk` ends, as a place of some `before` bytes and then `chunk`.
fn seek_after(before: usize, chunk: &[u8], ended: bool) -> Sought
    requires { before + length chunk.now < 18446744073709551616 }
    ensures { result ≡ beyond before (seek (up_to (end_of ended) front) chunk.now) }
{
    match seek(chunk, ended) {
        Sought::Starved(k) => Sought::Starved(before + k),
        Sought::Found(k, n, good) => Sought::Found(before + k, n, good),
    }
}

// Where it ends through the first `held` of `bytes`, all of them where there are fewer, and then `chunk`.
pub fn seek_held(bytes: &[u8], held: usize, chunk: &[u8], ended: bool) -> Sought
    ensures { result ≡ seek (up_to (end_of ended) front) (take held bytes.now ++ chunk.now) }
{
    // one call, so that the compiler puts the whole seek here: with two it is a function of its own, and a feed takes more stack
    Unread::new(bytes, held, chunk).seek(ended)
}
