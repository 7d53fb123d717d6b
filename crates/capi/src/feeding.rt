// The board: starting, feeding and silences. The caller keeps it, and it is called in place. A feed by value is left out: it would copy
// the board three times, and a second caller of the step would keep the compiler from making one function of a whole feed.
ghost use Rattle.std.specs.Prelude.{◌≡◌};
ghost use Rattle.board.specs.Start.{start_of, start_place_of};
ghost use Rattle.board.specs.Feed.{input_of};
ghost use Rattle.board.specs.Place.{place_by};

use board::{Started, StartedInPlace, Stepped};
use command::Settings;

// A board on the settings that the page keeps; number 0. With 19 (not 64 bytes) or 20 (neither blank nor sound) it is a
// board on the factory's settings. All totals are zero. With `readonly` port 1 may use Ping and function 2 only, for as
// long as the board is used, also where the page is refused. Nothing is written.
#[unsafe(no_mangle)]
pub extern "C" fn ketphiroj_start(readonly: bool, page: &[u8]) -> Started
    ensures { result ≡ start_of readonly page.now }
{
    board::start(readonly, page)
}

// Starts a board that the caller keeps, without a copy of it: `first` and `second` are the 260 bytes of its ports, which are cleared;
// both hold nothing then, and the caller sets their totals to zero. The answer has the settings that the page keeps, and the profile
// that was asked for; number 0. With 19 (not 64 bytes) or 20 (neither blank nor sound) the settings are the factory's, and the ports
// are cleared all the same, as in the board of ketphiroj_start. 17: an array is not 260 bytes; nothing is written then.
#[unsafe(no_mangle)]
pub extern "C" fn ketphiroj_start_in_place(
    readonly: bool,
    first: &mut [u8],
    second: &mut [u8],
    page: &[u8],
) -> StartedInPlace
    ensures { record { answer = result; first = first.new; second = second.new } ≡ start_place_of readonly first.old second.old page.now }
{
    board::start_in_place(readonly, first, second, page)
}

// A feed of a chunk to port 0 or 1, or with `quiet` a silence, without a copy of the board: `bytes` are the 260 bytes of the named port,
// written in place, `first` and `second` the held counts of ports 0 and 1, `readonly` the profile that the board was started in, `totals`
// the 11 totals of the named port, counted in place. Number 0: a message was answered, its reply stands at the front of `room`, `error` is
// the first error in it, and an accepted save or a fresh number has written the page; the rest of the chunk, behind the bytes taken, is to
// be fed again, and a silence is to be repeated. Number 1: the whole chunk was taken, and there is nothing more to report; after a silence
// nothing is held. Nothing is written to the room or the page then. The answer has the named port's held count and the settings afterwards.
// A refusal (16 to 20) writes nothing, counts nothing and answers those given; an array that is not 260 bytes, and a row that is not 11
// totals, give 17. With `quiet` the chunk is not looked at, and none is taken.
//
// One function for both, so that the compiler makes one of a whole call: with two, a feed is a function that calls another, and
// takes more stack (docs/DECISIONS.md). The header gives each its name.
// Kept: what belongs together is passed part by part, as the C interface has it (`ketphiroj_call_in_place`).
#[unsafe(no_mangle)]
pub extern "C" fn ketphiroj_call_in_place(
    port: u8,
    bytes: &mut [u8],
    first: usize,
    second: usize,
    settings: Settings,
    readonly: bool,
    quiet: bool,
    totals: &mut [u64],
    chunk: &[u8],
    room: &mut [u8],
    page: &mut [u8],
) -> Stepped
    ensures { record { step = result; bytes = bytes.new; totals = totals.new; room = room.new; page = page.new } ≡ place_by port bytes.old first second settings readonly totals.old (input_of quiet chunk.now) room.old page.old }
{
    board::call_in_place(
        port, bytes, first, second, settings, readonly, quiet, totals, chunk, room, page,
    )
}
