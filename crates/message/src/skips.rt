// Bytes that the scan skips whatever follows them: noise, and a run of A5 but for its last two. A loop of its own for each, since a
// loop with a message's tests in it is slower.
ghost use Rattle.std.specs.Prelude.{◌≡◌, ◌≤◌, ◌<◌, ℕ, true, false, length, slice_index_or};
ghost use Rattle.message.specs.Skips.{SkippedPart, RunAt};

// Whether one of the bytes passes the test. There is no branch out of the loop, so that a block of fixed length is tested at once.
fn any<F: Fn(u8) -> bool>(block: &[u8], test: F) -> bool
    requires { F.IsAlwaysCallable test }
    ensures one { result ≡ true → (k : ℕ) × (k < length block.now) × F.post test (slice_index_or block.now k 0) true }
    ensures none { result ≡ false → (k : ℕ) → k < length block.now → F.post test (slice_index_or block.now k 0) false }
{
    let mut found = false;
    for &b in block {
        found |= test(b);
    }
    found
}

// From `from` on, past as many blocks of 16 bytes as have no A5.
fn past_blocks(s: &[u8], from: usize) -> usize
    requires { from ≤ length s.now }
    ensures { SkippedPart s.now from result }
{
    let mut i = from;
    for block in s[from..].chunks_exact(16) {
        if any(block, |b| b == 0xA5) {
            return i;
        }
        i += 16;
    }
    i
}

// The next A5 from `from` on, or the end.
fn next_a5(s: &[u8], from: usize) -> usize
    requires { from ≤ length s.now }
    ensures { SkippedPart s.now from result }
{
    let i = past_blocks(s, from);
    let rest = &s[i..];
    i + rest.iter().position(|&b| b == 0xA5).unwrap_or(rest.len())
}

// From two A5 at `from` on, past as many blocks of 16 bytes as the run of A5 goes on for.
fn past_run_blocks(s: &[u8], from: usize) -> usize
    requires { RunAt s.now from from }
    ensures { RunAt s.now from result }
{
    let mut i = from;
    for block in s[from + 2..].chunks_exact(16) {
        if any(block, |b| b != 0xA5) {
            return i;
        }
        i += 16;
    }
    i
}

// The last two bytes of a run of A5 from `from` on, or `from` where no two A5 stand there.
fn past_run(s: &[u8], from: usize) -> usize
    requires { from ≤ length s.now }
    ensures { SkippedPart s.now from result }
{
    let [0xA5, 0xA5, ..] = &s[from..] else {
        return from;
    };
    let at = past_run_blocks(s, from);
    let rest = &s[at + 2..];
    at + rest.iter().position(|&b| b != 0xA5).unwrap_or(rest.len())
}

// The next place from `from` on that has to be looked at. What is handed on is a part of `s`, all of it: a caller then passes `s` in
// registers, where it would else pass the place of a copy on its stack (docs/DECISIONS.md).
pub(crate) fn past_skips(s: &[u8], from: usize) -> usize
    requires { from ≤ length s.now }
    ensures { SkippedPart s.now from result }
{
    let whole = &s[0..];
    past_run(whole, next_a5(whole, from))
}
