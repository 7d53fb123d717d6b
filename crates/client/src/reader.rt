// The reply reader.
ghost use Rattle.std.specs.Prelude.{◌≡◌, ◌≤◌, length, MatchOption};
ghost use Rattle.message.specs.Fields.{fields_of};
ghost use Rattle.client.specs.Reader.{rows_in, rows_wrong, rows_read, reply_read, reply_of};
ghost use Rattle.client.specs.Rows.{row_size, value_field_size, starts_with_value, RowSplit, ValueSplit};

use message::check_message;
use page::{Setting, code_of, readable, setting_of, value_size};
use refusal::Refusal;
use word::number_of;

// What a row of a reply says.
#[derive(Clone, Copy, Default)]
pub struct Reply {
    // the type
    pub kind: u8,
    pub echo: u8,
    pub error: u8,
    pub value: Option<u32>,
}

// Reads a row, counted from 0, of a reply that is one whole message.
pub fn read_reply(message: &[u8], row: usize) -> Result<Reply, Refusal>
    ensures { reply_of result ≡ reply_read message.now row }
{
    check_message(message)?;
    let n = message.len();
    read_rows(message[2], &message[4..n - 2], row)
}

// Reads all rows, and keeps the one that is asked for.
fn read_rows(kind: u8, payload: &[u8], row: usize) -> Result<Reply, Refusal>
    requires { length payload.now ≤ 255 }
    ensures { reply_of result ≡ rows_read kind (rows_in kind (fields_of payload.now)) row }
{
    let mut kept = Err(Refusal::NoField);
    // Kept: the rows are counted by hand, since an iterator of them would be a type with laws of its own for this one loop.
    let mut n: usize = 0;
    let mut rest = payload;
    while !rest.is_empty() {
        let Some((reply, behind)) = split_row(kind, rest) else {
            return Err(Refusal::Kind);
        };
        if n == row {
            kept = Ok(reply);
        }
        rest = behind;
        n += 1;
    }
    if rows_wrong(kind, n) {
        return Err(Refusal::Kind);
    }
    kept
}

// Whether so many rows in a message of this type are not a reply.
fn rows_wrong(kind: u8, n: usize) -> bool
    ensures { result ≡ rows_wrong kind n }
{
    match n {
        1 => false,
        2..=16 => !matches!(kind, 0x01 | 0x02 | 0x7C),
        _ => true,
    }
}

// The row that `bytes` start with, its value with it, and the bytes behind it.
#[tactic(auto, unfolding(crate::specs::Rows::row_size))]
fn split_row(kind: u8, bytes: &[u8]) -> Option<(Reply, &[u8])>
    ensures { MatchOption result (row_size kind bytes.now ≡ 0) (λ p. RowSplit kind bytes.now p.0 p.1.now) }
{
    match *bytes {
        [0x80, 0x02, echo, error @ 0..=7, ref rest @ ..] => {
            let (value, behind) = match split_value(kind, echo, error, rest) {
                Some((value, behind)) => (Some(value), behind),
                None => (None, rest),
            };
            let reply = Reply {
                kind,
                echo,
                error,
                value,
            };
            Some((reply, behind))
        }
        _ => None,
    }
}

// The value in the field at the front of `bytes` that adds one to the echo and the error before it, and the bytes behind it: in types
// 02 and 7C and with error 0, where its code is the echo. Where it adds none, it is the next row's. (Type 7C has values for a command
// of type 02 inside; the rows do not say its type.)
#[tactic(auto, using(crate::proofs::Readings::value_fits), unfolding(crate::specs::Rows::value_field_size))]
fn split_value(kind: u8, echo: u8, error: u8, bytes: &[u8]) -> Option<(u32, &[u8])>
    ensures { MatchOption result (value_field_size kind echo error bytes.now ≡ 0) (λ p. ValueSplit (value_field_size kind echo error bytes.now) bytes.now p.0 p.1.now) }
{
    if !matches!(kind, 0x02 | 0x7C) || error != 0 {
        return None;
    }
    let setting = setting_of(echo)?;
    if !starts_with_value(setting, bytes) {
        return None;
    }
    let n = value_size(setting) + 2;
    Some((number_of(&bytes[2..n]), &bytes[n..]))
}

// Whether `bytes` start with a field of this setting, with its value size and a readable value.
#[tactic(auto, using(crate::proofs::Readings::value_part), unfolding(crate::specs::Rows::starts_with_value))]
fn starts_with_value(setting: Setting, bytes: &[u8]) -> bool
    ensures { result ≡ starts_with_value setting bytes.now }
{
    let n = value_size(setting);
    n + 2 <= bytes.len()
        && bytes[0] == code_of(setting)
        && usize::from(bytes[1]) == n
        && readable(setting, number_of(&bytes[2..n + 2]))
}
