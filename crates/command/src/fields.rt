// The fields of a command that lies in held bytes and then a chunk, and the errors of the command as a whole.
ghost use Rattle.std.specs.Prelude.{◌≡◌, not, ◌+◌, ◌-◌, ◌≤◌, ◌<◌, length, take, drop};
ghost use Rattle.message.specs.Fields.{fields_of};
ghost use Rattle.message.specs.Message.{payload_of};
ghost use Rattle.message.specs.Unread.{bytes_of};
ghost use Rattle.command.specs.Payload.{bytes_in, Stands};
ghost use Rattle.command.specs.Errors.{fields_refused, command_error};

use crate::command::count_of;
use crate::errors::is_kind;
use crate::payload::Payload;
use message::Unread;

// Where the payload of the message at the front of `unread` ends; it starts at 4.
pub(crate) fn payload_end(unread: Unread) -> usize
    ensures lower_bound { (4 ≤ result) × (result < 260) × (result ≤ 4 + (length unread.entry.held.now + length unread.entry.chunk.now - 4)) }
    ensures chunk_value { drop 4 (take result (bytes_of unread.entry)) ≡ payload_of (bytes_of unread.entry) }
{
    let end = 4 + count_of(unread.byte(3));
    let there = unread.len();
    if end <= there {
        return end;
    }
    if there < 4 { 4 } else { there }
}

// Whether fields, at most 16, fill the payload exactly.
fn fields_fit(payload: Payload) -> bool
    requires { Stands payload × (payload.to < 65536) × (payload.to ≤ length payload.unread.held.now + length payload.unread.chunk.now) }
    ensures { result ≡ not (fields_refused (fields_of (bytes_in payload.entry))) }
{
    let to = payload.to;
    let mut at = payload.from;
    let mut n: usize = 0;
    while at < to {
        if n == 16 {
            return false;
        }
        at += 2 + count_of(payload.unread.byte(at + 1));
        n += 1;
    }
    at == to
}

// The error of a command as a whole, whose fields are to fill its payload: 0 where each field has its own.
// Kept: numbers (b). With an enum of the errors and `Result<(), Error>` a feed takes 264 bytes of stack, over 256 (bin/frames).
pub(crate) fn command_error(payload: Payload, kind: u8) -> u8
    requires { Stands payload × (payload.to < 65536) }
    ensures { result ≡ command_error kind (bytes_in payload.entry) }
{
    if !is_kind(kind) {
        return 2;
    }
    if payload.from == payload.to {
        return 3;
    }
    if fields_fit(payload) { 0 } else { 4 }
}
