// The tests of a call, and one accepted call of a port, a feed or a silence: `quiet` says that the line has gone quiet, and then no
// byte is waited for.
ghost use Rattle.std.specs.Prelude.{◌≡◌, false, ◌++◌, length, take, drop, ◌+◌, ◌-◌, ◌≤◌, ◌<◌};
ghost use Rattle.stream.specs.declared.Sought.TheVariants.{Found};
ghost use Rattle.stream.specs.Seek.{resume, skipped_by};
ghost use Rattle.message.specs.Unread.{bytes_of};
ghost use Rattle.command.specs.Outcome.{received_of};
ghost use Rattle.command.specs.Answer.{answering};
ghost use Rattle.board.specs.Port.{padded};
ghost use Rattle.board.specs.Feed.{feed_number, left_of, step_on, step_at};
ghost use Rattle.board.specs.Place.{in_place, place_number};

use crate::keep::keep_part;
use crate::port::Port;
use command::{Answer, Rights, Settings, answer_over, settings_usable};
use message::{Unread, seek_held};
use stream::Sought;
use totals::Tally;

// The number of the first test that refuses, 0 where none does.
// Kept: a number (b). With `Result<(), Refusal>` from here and from page::check_page a feed takes 264 bytes of stack, over 256 (bin/frames).
pub(crate) fn feed_number(
    port: u8,
    first: usize,
    second: usize,
    w: Settings,
    room: &[u8],
    page: &[u8],
) -> u8
    ensures { result ≡ feed_number port first second w room.now page.now }
{
    if 1 < port {
        return 16;
    }
    if Port::ROOM < first {
        return 17;
    }
    if Port::ROOM < second {
        return 17;
    }
    if !settings_usable(w) {
        return 17;
    }
    if room.len() < Port::REPLY {
        return 18;
    }
    page::check_page(page)
}

// Answers the message that starts behind `k` of the unread bytes, whether it is held, straddles or is all in the chunk.
fn answer_at(
    rights: Rights,
    unread: Unread,
    k: usize,
    good: bool,
    w: Settings,
    room: &mut [u8],
    page: &mut [u8],
) -> Answer
    ensures { record { answer = result; room = room.new; page = page.new } ≡ answering rights (received_of good (drop k (bytes_of unread.entry))) w room.old page.old }
{
    answer_over(rights, unread.after(k), good, w, room, page)
}

// Where reading goes on after a message: behind a good one, one byte after the start of a damaged one.
fn resume_at(k: usize, n: usize, good: bool) -> usize
    requires n_bound { k + n < 18446744073709551616 }
    requires le_n { 1 ≤ n }
    ensures { result ≡ resume k n good }
{
    if good { k + n } else { k + 1 }
}

// The bytes skipped up to a message, and with a damaged one its first byte.
fn skipped_with(k: usize, good: bool) -> usize
    requires { k + 1 < 18446744073709551616 }
    ensures { result ≡ skipped_by k good }
{
    if good { k } else { k + 1 }
}

// Keeps what a found message leaves of the bytes held and taken, and says how many they are.
fn keep_after(
    bytes: &mut [u8; 260],
    held: usize,
    chunk: &[u8],
    k: usize,
    n: usize,
    good: bool,
) -> usize
    requires held_bound { held ≤ 260 }
    requires le_n { (1 ≤ n) × (n ≤ 261) × (k + n ≤ held + length chunk.now) }
    ensures value { result ≡ length (left_of k n good (take held bytes.old) chunk.now) }
    ensures bytes_after { bytes.new ≡ padded (left_of k n good (take held bytes.old) chunk.now) }
{
    let from = resume_at(k, n, good);
    let to = held + (k + n).saturating_sub(held);
    keep_part(bytes, held, chunk, from, to);
    to - from
}

// What a step of a port answers. The port's bytes stay in its array. The widest fields come first: with a byte in front of
// them, a copy of the answer is made of parts that straddle the fields, and is slow (docs/DECISIONS.md).
#[repr(C)]
#[derive(Clone, Copy)]
pub struct Stepped {
    pub taken: usize,
    pub skipped: usize,
    pub held: usize,
    pub settings: Settings,
    // document 01's number
    // Kept: a number in the answer, the C interface (`ketphiroj_stepped` in include/ketphiroj.h)
    pub number: u8,
    // the first error in the reply, 0 where there is none
    pub error: u8,
    pub saved: bool,
}

// A step where nothing is found: the whole chunk is taken.
fn step_starved(bytes: &mut [u8; 260], held: usize, chunk: &[u8], k: usize, w: Settings) -> Stepped
    requires held_bound { held ≤ 260 }
    requires k_bound { (k ≤ held + length chunk.now) × (held + length chunk.now - k ≤ 260) }
    ensures value { result ≡ record { number = 1; taken = length chunk.now; skipped = k; error = 0; saved = false; held = length (drop k (take held bytes.old ++ chunk.now)); settings = w } }
    ensures bytes_after { bytes.new ≡ padded (drop k (take held bytes.old ++ chunk.now)) }
{
    let to = held + chunk.len();
    keep_part(bytes, held, chunk, k, to);
    Stepped {
        number: 1,
        taken: chunk.len(),
        skipped: k,
        error: 0,
        saved: false,
        held: to - k,
        settings: w,
    }
}

// What a step answers that found a message behind `k` bytes, `n` long, and keeps `left` bytes. What follows from the message's place
// is computed here, behind its answer, so that it need not be kept over that.
fn reported(held: usize, k: usize, n: usize, good: bool, a: Answer, left: usize) -> Stepped
    requires { (k + n < 18446744073709551616) × (1 ≤ n) }
    ensures { result ≡ record { number = 0; taken = k + n - held; skipped = skipped_by k good; error = a.error; saved = a.saved; held = left; settings = a.settings } }
{
    let settings = a.settings;
    Stepped {
        number: 0,
        taken: (k + n).saturating_sub(held),
        skipped: skipped_with(k, good),
        error: a.error,
        saved: a.saved,
        held: left,
        settings,
    }
}

// A step where a message is found: it is handled, and bytes are taken up to its end.
fn step_found(
    rights: Rights,
    bytes: &mut [u8; 260],
    held: usize,
    chunk: &[u8],
    k: usize,
    n: usize,
    good: bool,
    w: Settings,
    room: &mut [u8],
    page: &mut [u8],
) -> Stepped
    requires held_bound { held ≤ 260 }
    requires le_n { (1 ≤ n) × (n ≤ 261) × (k + n ≤ held + length chunk.now) }
    ensures { record { step = result; bytes = bytes.new; room = room.new; page = page.new } ≡ in_place (step_on rights (Found k n good) (take held bytes.old) w chunk.now room.old page.old) }
{
    let unread = Unread::new(bytes, held, chunk);
    let a = answer_at(rights, unread, k, good, w, room, page);
    let left = keep_after(bytes, held, chunk, k, n, good);
    reported(held, k, n, good, a, left)
}

// One accepted call of a port, in its array.
// Kept: `quiet` beside the chunk, since with an Option<&[u8]> a feed takes 264 bytes of stack, over the limit (docs/DECISIONS.md).
// Kept: `room` and `page` side by side, and `bytes` and `held`: in a struct of lent parts each function would promise that they are the same.
pub(crate) fn step(
    rights: Rights,
    bytes: &mut [u8; 260],
    held: usize,
    chunk: &[u8],
    quiet: bool,
    w: Settings,
    room: &mut [u8],
    page: &mut [u8],
) -> Stepped
    requires { held ≤ 260 }
    ensures { record { step = result; bytes = bytes.new; room = room.new; page = page.new } ≡ in_place (step_at rights quiet (take held bytes.old) w chunk.now room.old page.old) }
{
    match seek_held(bytes, held, chunk, quiet) {
        Sought::Starved(k) => step_starved(bytes, held, chunk, k, w),
        Sought::Found(k, n, good) => step_found(
            rights, bytes, held, chunk, k, n, good, w, room, page,
        ),
    }
}

// The number of the first test that refuses a call in place.
// Kept: a number (b), as in `feed_number`.
pub(crate) fn place_number(
    port: u8,
    bytes: &[u8],
    first: usize,
    second: usize,
    w: Settings,
    totals: &[u64],
    room: &[u8],
    page: &[u8],
) -> u8
    ensures { result ≡ place_number port bytes.now first second w totals.now room.now page.now }
{
    if 1 < port {
        return 16;
    }
    if bytes.len() != Port::ROOM {
        return 17;
    }
    if totals.len() != Tally::ROW {
        return 17;
    }
    feed_number(port, first, second, w, room, page)
}
