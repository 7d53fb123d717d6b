// Messages: the test of one, the plain writer, the command writers, the writer of one field, the reply reader.
ghost use Rattle.std.specs.Prelude.{◌≡◌};
ghost use Rattle.message.specs.Whole.{whole_number};
ghost use Rattle.message.specs.Write.{plain_writing};
ghost use Rattle.client.specs.Writer.{command_writing, numbered_writing, field_writing};
ghost use Rattle.client.specs.Reader.{reply_read, reply_of};
ghost use Rattle.capi.specs.Flat.{flat_reply};

use crate::flat::FlatReply;
use client::Reply;
use message::Written;
use refusal::{Refusal, number_of};

impl From<Result<Reply, Refusal>> for FlatReply {
    ghost from_gives = { λ r f. f ≡ flat_reply (reply_of r) };

    fn from(answer: Result<Reply, Refusal>) -> FlatReply {
        match answer {
            Ok(reply) => FlatReply {
                number: 0,
                kind: reply.kind,
                echo: reply.echo,
                error: reply.error,
                has_value: reply.value.is_some(),
                value: reply.value.unwrap_or(0),
            },
            Err(refusal) => FlatReply {
                number: u8::from(refusal),
                ..FlatReply::default()
            },
        }
    }
}

// 0 where the bytes are one whole message with right sums; 21: not one whole message; 22: wrong sums.
#[unsafe(no_mangle)]
pub extern "C" fn ketphiroj_check_message(message: &[u8]) -> u8
    ensures { result ≡ whole_number message.now }
{
    number_of(message::check_message(message))
}

// Writes the message of this type and payload to the front of `room`: number 0 and its length. 26: over 255 payload bytes;
// 18: the room is too short. Nothing is written then.
#[unsafe(no_mangle)]
pub extern "C" fn ketphiroj_write_message(kind: u8, payload: &[u8], room: &mut [u8]) -> Written
    ensures { record { answer = result; room = room.new } ≡ plain_writing kind payload.now room.old }
{
    Written::from(message::write_message(kind, payload, room))
}

// Writes the command of this code and function to the front of `room`: number 0 and its length. Function 1 is written with
// the value, 2 to 5 without, Ping (code 2) without both. 28: the board does not accept it; 18: the room is too short.
// Nothing is written then.
#[unsafe(no_mangle)]
pub extern "C" fn ketphiroj_write_command(
    code: u8,
    function: u8,
    value: u32,
    room: &mut [u8],
) -> Written
    ensures { record { answer = result; room = room.new } ≡ command_writing code function value room.old }
{
    Written::from(client::write_command(code, function, value, room))
}

// Writes one field of a command of this type behind the first `length` bytes of `room`, a payload to be: number 0 and the payload's
// length with it. Function 1 is written with the value, 2 to 5 without, Ping (type 1, code 2) without both. 28: the board does not
// accept a command of this type with this field; 18: the room is too short. Nothing is written then, and the length is 0. The
// payload, of at most 16 fields, is a command once `ketphiroj_write_message` has made a message of the same type of it; behind the
// four bytes of a number and the type, one of type 7C.
#[unsafe(no_mangle)]
pub extern "C" fn ketphiroj_append_field(
    kind: u8,
    code: u8,
    function: u8,
    value: u32,
    length: usize,
    room: &mut [u8],
) -> Written
    ensures { record { answer = result; room = room.new } ≡ field_writing kind (record { code = code; function = function; value = value }) length room.old }
{
    Written::from(client::append_field(kind, code, function, value, length, room))
}

// Writes the numbered command of this code and function to the front of `room`: number 0 and its length. It is a message of type 7C:
// `number`, then the type and the field that `ketphiroj_write_command` writes. 28: the board does not accept the command; 18: the
// room is too short. Nothing is written then.
#[unsafe(no_mangle)]
pub extern "C" fn ketphiroj_write_numbered(
    number: u32,
    code: u8,
    function: u8,
    value: u32,
    room: &mut [u8],
) -> Written
    ensures { record { answer = result; room = room.new } ≡ numbered_writing number code function value room.old }
{
    Written::from(client::write_numbered(number, code, function, value, room))
}

// Reads a row, counted from 0, of a reply that is one whole message: number 0. 21: not one whole message; 22: wrong sums; 23: not
// a reply; 27: no row of that number. All else is 0 then.
#[unsafe(no_mangle)]
pub extern "C" fn ketphiroj_read_reply(message: &[u8], row: usize) -> FlatReply
    ensures { result ≡ flat_reply (reply_read message.now row) }
{
    FlatReply::from(client::read_reply(message, row))
}
