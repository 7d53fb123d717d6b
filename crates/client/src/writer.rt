// The command writer, with a number and without, and the writer of one field more.
ghost use Rattle.std.specs.Prelude.{◌≡◌, not};
ghost use Rattle.message.specs.Write.{refuse_writing, written_of};
ghost use Rattle.command.specs.declared.command.Subject.{Subject};
ghost use Rattle.command.specs.Command.{subject_of};
ghost use Rattle.client.specs.Writer.{code_subject, acceptable, field_for, command_writing, numbered_writing, behind_writing, field_writing};

use command::{Subject, subject_of};
use message::write_message;
use page::{Setting, code_of, usable};
use refusal::Refusal;

// Writes the command of this code and function to the front of `room`, and tells its length: function 1 with the value, the functions
// 2 to 5 without, Ping without both. What is not written is not looked at.
pub fn write_command(code: u8, function: u8, value: u32, room: &mut [u8]) -> Result<usize, Refusal>
    ensures { record { answer = written_of result; room = room.new } ≡ command_writing code function value room.old }
{
    let kind = kind_of(code);
    let mut field = [0; 7];
    let n = append_field(kind, code, function, value, 0, &mut field)?;
    write_message(kind, &field[..n], room)
}

// Writes the same command behind a number, as a message of type 7C: the number, the command's type, its field.
pub fn write_numbered(
    number: u32,
    code: u8,
    function: u8,
    value: u32,
    room: &mut [u8],
) -> Result<usize, Refusal>
    ensures { record { answer = written_of result; room = room.new } ≡ numbered_writing number code function value room.old }
{
    let kind = kind_of(code);
    let [b3, b2, b1, b0] = number.to_be_bytes();
    // the field has at most 7 bytes
    let mut payload = [b3, b2, b1, b0, kind, 0, 0, 0, 0, 0, 0, 0];
    let n = append_field(kind, code, function, value, 5, &mut payload)?;
    write_message(0x7C, &payload[..n], room)
}

// The type of the command of this code: Ping's is 01, that of a setting 02.
#[tactic(auto, unfolding(crate::specs::Writer::code_subject, command::specs::Command::subject_of))]
fn kind_of(code: u8) -> u8
    ensures { subject_of result code ≡ code_subject code }
{
    if code == 0x02 { 0x01 } else { 0x02 }
}

// Writes one field of a command behind the first `length` bytes of `room`, a payload to be, and tells the payload's length with it.
// `write_message` makes a message of it, of the same type; behind a number and the type, 5 bytes, one of type 7C. As in a command of
// its own: function 1 with the value, the functions 2 to 5 without, Ping without both.
// Kept: the length beside the room is the C interface (`ketphiroj_append_field`).
#[inline(always)] // a call would answer through memory
#[tactic(auto, unfolding(crate::specs::Writer::field_writing, crate::specs::Writer::acceptable))]
pub fn append_field(
    kind: u8,
    code: u8,
    function: u8,
    value: u32,
    length: usize,
    room: &mut [u8],
) -> Result<usize, Refusal>
    ensures { record { answer = written_of result; room = room.new } ≡ field_writing kind (record { code = code; function = function; value = value }) length room.old }
{
    match subject_of(kind, code) {
        Subject::Ping => append_bytes(&[0x02, 0x00], length, room),
        Subject::Setting(setting) => append_setting(setting, function, value, length, room),
        Subject::Unknown => Err(Refusal::Command),
    }
}

// Whether the board accepts this function of a setting. The value is looked at under function 1 only.
#[tactic(auto, unfolding(crate::specs::Writer::acceptable))]
fn accepts(setting: Setting, function: u8, value: u32) -> bool
    ensures { result ≡ acceptable (Subject.Setting setting) function value }
{
    match function {
        1 => usable(setting, value),
        2..=5 => true,
        _ => false,
    }
}

// Writes a field of a setting behind the first `length` bytes of `room`, where the board accepts it.
fn append_setting(
    setting: Setting,
    function: u8,
    value: u32,
    length: usize,
    room: &mut [u8],
) -> Result<usize, Refusal>
    ensures { record { answer = written_of result; room = room.new } ≡ refuse_writing (not (acceptable (Subject.Setting setting) function value)) 28 room.old (behind_writing (field_for (Subject.Setting setting) function value) length room.old) }
{
    if !accepts(setting, function, value) {
        return Err(Refusal::Command);
    }
    let code = code_of(setting);
    if 1 < function {
        return append_bytes(&[code, 1, function], length, room);
    }
    let [b3, b2, b1, b0] = value.to_be_bytes();
    match setting {
        Setting::Baud => append_bytes(&[code, 5, 1, b3, b2, b1, b0], length, room),
        Setting::Accelerometer | Setting::Gyroscope => {
            append_bytes(&[code, 2, 1, b0], length, room)
        }
    }
}

// Writes bytes behind the first `length` bytes of `room`, and tells the length with them. What is left of the room is reckoned, not
// where the bytes would end: that may be past the largest number.
fn append_bytes(bytes: &[u8], length: usize, room: &mut [u8]) -> Result<usize, Refusal>
    ensures { record { answer = written_of result; room = room.new } ≡ behind_writing bytes.now length room.old }
{
    let n = bytes.len();
    if room.len() < length || room.len() - length < n {
        return Err(Refusal::Room);
    }
    room[length..length + n].copy_from_slice(bytes);
    Ok(length + n)
}
