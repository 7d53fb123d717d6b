// The calls of a port: a feed and a silence, of a board by value and for a caller that keeps the board. `quiet` says that the line has
// gone quiet.
ghost use Rattle.std.specs.Prelude.{◌≡◌, length, ◌+◌, ◌≤◌, ◌<◌};
ghost use Rattle.history.specs.Calls.{chunk_of};
ghost use Rattle.board.specs.Port.{held_bytes};
ghost use Rattle.totals.specs.Tally.{counted_of};
ghost use Rattle.board.specs.Feed.{input_of, step_at, call_of, feed_of, silence_of};
ghost use Rattle.board.specs.Place.{in_place, named_held, place_by, place_of, silence_place_of};

use crate::board::{Board, Fed};
use crate::counting::add_call;
use crate::feeding::{Stepped, feed_number, place_number, step};
use crate::port::Port;
use crate::profile::rights_of;
use command::{Rights, Settings};
use totals::Tally;

// The bytes that a call brings: none where the line has gone quiet.
fn brought(quiet: bool, chunk: &[u8]) -> usize
    ensures value { result ≡ length (chunk_of (input_of quiet chunk.now)) }
    // no slice is so long that a port's bytes more would not fit
    ensures result_bound { result + 260 < 18446744073709551616 }
{
    if quiet { 0 } else { chunk.len() }
}

// A feed, or with `quiet` a silence, for a caller that keeps the board: `bytes` is the array of the named port, which is written in
// place, `first` and `second` are the held counts of both ports, `readonly` is the profile that the board was started in, `totals` are
// those of the named port, which are counted in place, and the answer has the named port's held count and the settings afterwards. A
// silence does not look at the chunk.
// Kept: the arguments one by one, the C interface (`ketphiroj_call_in_place`)
pub fn call_in_place(
    port: u8,
    bytes: &mut [u8],
    first: usize,
    second: usize,
    w: Settings,
    readonly: bool,
    quiet: bool,
    totals: &mut [u64],
    chunk: &[u8],
    room: &mut [u8],
    page: &mut [u8],
) -> Stepped
    ensures { record { step = result; bytes = bytes.new; totals = totals.new; room = room.new; page = page.new } ≡ place_by port bytes.old first second w readonly totals.old (input_of quiet chunk.now) room.old page.old }
{
    let number = place_number(port, bytes, first, second, w, totals, room, page);
    let held = held_of(port, first, second);
    if number != 0 {
        return Stepped {
            number,
            taken: 0,
            skipped: 0,
            error: 0,
            saved: false,
            held,
            settings: w,
        };
    }
    let n = brought(quiet, chunk);
    let rights = rights_of(readonly, port);
    let Some(row) = bytes.as_mut_array() else {
        unreachable!()
    };
    let s = step(rights, row, held, &chunk[0..n], quiet, w, room, page);
    add_call(totals, s, held);
    s
}

// A feed for such a caller.
pub fn feed_in_place(
    port: u8,
    bytes: &mut [u8],
    first: usize,
    second: usize,
    w: Settings,
    readonly: bool,
    totals: &mut [u64],
    chunk: &[u8],
    room: &mut [u8],
    page: &mut [u8],
) -> Stepped
    ensures { record { step = result; bytes = bytes.new; totals = totals.new; room = room.new; page = page.new } ≡ place_of port bytes.old first second w readonly totals.old chunk.now room.old page.old }
{
    call_in_place(
        port, bytes, first, second, w, readonly, false, totals, chunk, room, page,
    )
}

// A silence for such a caller.
pub fn silence_in_place(
    port: u8,
    bytes: &mut [u8],
    first: usize,
    second: usize,
    w: Settings,
    readonly: bool,
    totals: &mut [u64],
    room: &mut [u8],
    page: &mut [u8],
) -> Stepped
    ensures { record { step = result; bytes = bytes.new; totals = totals.new; room = room.new; page = page.new } ≡ silence_place_of port bytes.old first second w readonly totals.old room.old page.old }
{
    let nothing: &[u8] = &[];
    call_in_place(
        port, bytes, first, second, w, readonly, true, totals, nothing, room, page,
    )
}

fn held_of(port: u8, first: usize, second: usize) -> usize
    ensures { result ≡ named_held port first second }
{
    if port == 0 { first } else { second }
}

// An accepted call of a port, which is lent with its totals.
fn call_port(
    rights: Rights,
    p: &mut Port,
    tally: &mut Tally,
    chunk: &[u8],
    quiet: bool,
    w: Settings,
    room: &mut [u8],
    page: &mut [u8],
) -> Stepped
    requires { p.old.held ≤ 260 }
    ensures value { record { step = result; bytes = p.new.bytes; room = room.new; page = page.new } ≡ in_place (step_at rights quiet (held_bytes p.old) w chunk.now room.old page.old) }
    ensures held { p.new.held ≡ result.held }
    ensures totals { tally.new ≡ counted_of tally.old result.number result.taken result.skipped result.error p.old.held result.held }
{
    let held = p.held;
    let s = step(rights, &mut p.bytes, held, chunk, quiet, w, room, page);
    p.held = s.held;
    *tally = (*tally).counted(s.number, s.taken, s.skipped, s.error, held, s.held);
    s
}

// The tests of a call, then the named port.
fn call(
    port: u8,
    mut board: Board,
    chunk: &[u8],
    quiet: bool,
    room: &mut [u8],
    page: &mut [u8],
) -> Fed
    ensures { record { answer = result; room = room.new; page = page.new } ≡ call_of port board (input_of quiet chunk.now) room.old page.old }
{
    let number = feed_number(
        port,
        board.first.held,
        board.second.held,
        board.settings,
        room,
        page,
    );
    if number != 0 {
        return Fed {
            number,
            taken: 0,
            skipped: 0,
            error: 0,
            saved: false,
            board,
        };
    }
    let n = brought(quiet, chunk);
    let rights = rights_of(board.readonly, port);
    let w = board.settings;
    let s = if port == 0 {
        call_port(
            rights,
            &mut board.first,
            &mut board.tally0,
            &chunk[0..n],
            quiet,
            w,
            room,
            page,
        )
    } else {
        call_port(
            rights,
            &mut board.second,
            &mut board.tally1,
            &chunk[0..n],
            quiet,
            w,
            room,
            page,
        )
    };
    board.settings = s.settings;
    Fed {
        number: s.number,
        taken: s.taken,
        skipped: s.skipped,
        error: s.error,
        saved: s.saved,
        board,
    }
}

// Feeds a chunk to a port: takes bytes up to the end of the first message, handles it and writes the reply to the front
// of `room`, or takes the whole chunk where there is none. A refused feed changes nothing.
pub fn feed(port: u8, board: Board, chunk: &[u8], room: &mut [u8], page: &mut [u8]) -> Fed
    ensures { record { answer = result; room = room.new; page = page.new } ≡ feed_of port board chunk.now room.old page.old }
{
    call(port, board, chunk, false, room, page)
}

// Says that a port's line has gone quiet: the scan goes on over the held bytes, and what is undecided is skipped, up to the first
// message, which is handled as in a feed, or until nothing is held. To be repeated until it answers 1.
pub fn silence(port: u8, board: Board, room: &mut [u8], page: &mut [u8]) -> Fed
    ensures { record { answer = result; room = room.new; page = page.new } ≡ silence_of port board room.old page.old }
{
    let nothing: &[u8] = &[];
    call(port, board, nothing, true, room, page)
}
