// The data reader.
ghost use Rattle.std.specs.Prelude.{◌≡◌, false, ◌||◌, ◌+◌, ◌≤◌, ◌<◌, eqb, length, get_or};
ghost use Rattle.std.proofs.Math.Option.{some};
ghost use Rattle.refusal.specs.Refusal.{number_of};
ghost use Rattle.message.specs.Message.{payload_of};
ghost use Rattle.message.specs.Whole.{whole_number};
ghost use Rattle.message.specs.Fields.{fields_of};
ghost use Rattle.sample.specs.Reader.{answer_of, size_wrong, sample_of, read_on, field_read, field_data};
ghost use Rattle.sample.specs.Walk.{field_at, There, tested_from, Started, Placed};

use crate::axes::{Axes, axes_of};
use message::check_message;
use refusal::Refusal;

// What a field of a data message is.
#[derive(Clone, Copy)]
pub enum Sample {
    // in g
    Acceleration(Axes),
    // in degrees per second
    Rate(Axes),
    // another field: its code, and the place in the message of its first data byte
    Unknown(u8, usize),
}

// What the data reader answers.
#[derive(Clone, Copy)]
pub struct FieldRead {
    pub field: Sample,
    // the place in the message of the field's first data byte, and how many there are, whatever the field is
    pub place: usize,
    pub size: usize,
}

// Field k of a message, counted from 0.
pub fn read_field(message: &[u8], k: usize) -> Result<FieldRead, Refusal>
    ensures { answer_of result ≡ field_read message.now k }
{
    let at = find(message, k)?;
    Ok(read_at(payload_of(message), at))
}

// The data bytes of field k as that part of the message; an empty part where it is refused.
pub fn field_data(message: &[u8], k: usize) -> &[u8]
    ensures { result.now ≡ field_data message.now k }
{
    match find(message, k) {
        Ok(at) => data_at(payload_of(message), at),
        Err(_) => &message[..0],
    }
}

// Where field k of a message starts in its payload. Every field is tested before field k is looked for, so the payload is walked
// twice.
fn find(message: &[u8], k: usize) -> Result<usize, Refusal>
    ensures { Placed message.now k result }
{
    check_message(message)?;
    if message[2] != 0xA2 {
        return Err(Refusal::Kind);
    }
    let payload = payload_of(message);
    test_fields(payload)?;
    field_start(payload, k).ok_or(Refusal::NoField)
}

// The payload of a whole message: what stands between its four first bytes and its sums.
fn payload_of(message: &[u8]) -> &[u8]
    requires { whole_number message.now ≡ 0 }
    ensures { result.now ≡ payload_of message.now }
{
    let end = message.len() - 2;
    &message[4..end]
}

// Whether fields fill the payload and have right sizes. A wrong size is only remembered: a later field that does not fit comes
// before it.
// Kept: each field tells where the next one starts, so that no range steps from one to the next.
fn test_fields(payload: &[u8]) -> Result<(), Refusal>
    ensures { number_of result ≡ tested_from false (fields_of payload.now) }
{
    let mut at = 0;
    let mut wrong = false;
    while at < payload.len() {
        let end = field_end(payload, at);
        if payload.len() < end {
            return Err(Refusal::Fields);
        }
        wrong |= size_wrong(payload, at);
        at = end;
    }
    if wrong {
        Err(Refusal::FieldSize)
    } else {
        Ok(())
    }
}

// Where field k of a tested payload starts.
fn field_start(payload: &[u8], k: usize) -> Option<usize>
    requires { tested_from false (fields_of payload.now) ≡ 0 }
    ensures { Started payload.now k result }
{
    let mut at = 0;
    for _ in 0..k {
        if at == payload.len() {
            return None;
        }
        at = field_end(payload, at);
    }
    if at == payload.len() { None } else { Some(at) }
}

// Where the field at `at` ends: past the payload's end where it is not whole, also where it has no size.
fn field_end(payload: &[u8], at: usize) -> usize
    requires { at < length payload.now }
    ensures { result ≡ at + 2 + get_or payload.now (at + 1) 0 }
{
    let start = at + 2;
    if payload.len() < start {
        return start;
    }
    start + usize::from(payload[at + 1])
}

// Whether a field of this code has axes as its data.
fn has_axes(code: u8) -> bool
    ensures { result ≡ (eqb code 0x81 || eqb code 0x82) }
{
    matches!(code, 0x81 | 0x82)
}

// Whether the field at `at` has axes as its data and its size is not 12.
fn size_wrong(payload: &[u8], at: usize) -> bool
    requires { at + 2 ≤ length payload.now }
    ensures { result ≡ size_wrong (field_at payload.now at) }
{
    has_axes(payload[at]) && payload[at + 1] != 12
}

// What is answered of the field at `at`. Its data starts behind the message's four first bytes, and behind its own code and size.
fn read_at(payload: &[u8], at: usize) -> FieldRead
    requires { There payload.now at }
    ensures { answer_of (Ok result) ≡ read_on (some (record { field = field_at payload.now at; place = at + 6 })) 0 }
{
    FieldRead {
        field: sample_at(payload, at),
        place: at + 6,
        size: usize::from(payload[at + 1]),
    }
}

// What the field at `at` is.
fn sample_at(payload: &[u8], at: usize) -> Sample
    requires { There payload.now at }
    ensures { result ≡ sample_of (field_at payload.now at) (at + 6) }
{
    match payload[at] {
        0x81 => Sample::Acceleration(axes_of(data_at(payload, at))),
        0x82 => Sample::Rate(axes_of(data_at(payload, at))),
        code => Sample::Unknown(code, at + 6),
    }
}

// The data bytes of the field at `at`.
fn data_at(payload: &[u8], at: usize) -> &[u8]
    requires { There payload.now at }
    ensures { result.now ≡ (field_at payload.now at).content }
{
    let first = at + 2;
    let end = field_end(payload, at);
    &payload[first..end]
}
