// The number of a command of type 7C: its own errors, and how it is spent; and what a message comes to with it.
ghost use Rattle.std.specs.Prelude.{◌≡◌, false, ◌≤◌, length};
ghost use Rattle.command.specs.Payload.{bytes_in, Stands};
ghost use Rattle.command.specs.Answer.{number_on};
ghost use Rattle.command.specs.Numbers.{is_fresh, number_of, number_error};
ghost use Rattle.command.specs.Place.{opening_of};

use crate::payload::Payload;
use crate::rights::Rights;

// Whether a number is larger than the kept one; with none kept, every number is fresh.
// Kept: a match, since with a closure in `is_none_or` a wrong test (equal_number_fresh) is refused by a limit of the proof search only.
fn is_fresh(last: Option<u32>, number: u32) -> bool
    ensures { result ≡ is_fresh last number }
{
    match last {
        None => true,
        Some(kept) => kept < number,
    }
}

// The number that a payload starts with.
fn number_in(payload: Payload) -> u32
    requires { 4 ≤ length (bytes_in payload) }
    ensures { result ≡ number_of (bytes_in payload.entry) }
{
    word::word_of(
        payload.byte(0),
        payload.byte(1),
        payload.byte(2),
        payload.byte(3),
    )
}

// The error of the number of a payload: 0 where it is allowed and fresh.
// Kept: numbers (b). With an enum of the errors and `Result<(), Error>` a feed takes 264 bytes of stack, over 256 (bin/frames).
fn number_error(rights: Rights, payload: Payload, page: &[u8]) -> u8
    requires { Stands payload }
    ensures { result ≡ number_error rights (number_on page.now) (bytes_in payload.entry) }
{
    if rights.readonly {
        return 7;
    }
    if payload.len() < 5 {
        return 4;
    }
    if is_fresh(page::last_number(page), number_in(payload)) {
        0
    } else {
        5
    }
}

// What a message comes to before any field: its error, or the command in it.
#[derive(Clone, Copy)]
pub struct Opened {
    // 0 where there is a command
    pub error: u8,
    // the command's type
    pub kind: u8,
    // where its fields start; of a refused message, where what the reply echoes stands
    pub from: usize,
    // whether a number was spent
    pub numbered: bool,
}

// No number was spent.
fn unnumbered(error: u8, kind: u8, from: usize) -> Opened
    ensures { result ≡ record { error = error; kind = kind; from = from; numbered = false } }
{
    Opened {
        error,
        kind,
        from,
        numbered: false,
    }
}

// Opens the message of this type and payload: in type 7C the number is written to the page, and the command stands behind it.
pub(crate) fn open_message(
    rights: Rights,
    payload: Payload,
    good: bool,
    kind: u8,
    page: &mut [u8],
) -> Opened
    requires { Stands payload }
    ensures { record { opened = result; page = page.new } ≡ opening_of rights good kind (bytes_in payload.entry) page.old }
{
    if !good {
        return unnumbered(1, kind, 4);
    }
    if kind != 0x7C {
        return unnumbered(0, kind, 4);
    }
    let error = number_error(rights, payload, page);
    if error != 0 {
        return unnumbered(error, kind, 9);
    }
    page::put_last_number(number_in(payload), page);
    Opened {
        error: 0,
        kind: payload.byte(4),
        from: 9,
        numbered: true,
    }
}
