// What handling sees of one field of a command.
ghost use Rattle.std.specs.Prelude.{◌≡◌, ◌<◌, ◌+◌, get_or, take, drop};
ghost use Rattle.message.specs.Unread.{bytes_of};
ghost use Rattle.command.specs.Command.{command_of, subject_of};
ghost use Rattle.command.specs.Place.{field_at};

use message::Unread;
use page::Setting;

// A field, with the type of its message. What its data do not have is 0.
#[derive(Clone, Copy)]
pub struct Command {
    // the type
    pub kind: u8,
    pub code: u8,
    pub size: u8,
    pub function: u8,
    // the value's first byte, and the number of its four bytes
    pub first: u8,
    pub all: u32,
}

// What a command is about.
#[derive(Clone, Copy)]
pub enum Subject {
    Ping,
    Setting(Setting),
    Unknown,
}

// A byte as a number of bytes.
pub(crate) fn count_of(n: u8) -> usize
    ensures { (result ≡ n) × (result < 256) }
{
    n as usize
}

// Byte `i` of the `n` bytes from `at` on in `unread`: 0 where there is none.
fn data_byte(unread: Unread, at: usize, n: usize, i: usize) -> u8
    requires { at + i < 4294967296 }
    ensures { result ≡ get_or (take n (drop at (bytes_of unread.entry))) i 0 }
{
    if i < n { unread.byte(at + i) } else { 0 }
}

// The field whose code stands at `at` in `unread`. Its bytes are read in the order that they stand in: with the code and
// the function read behind the value's first byte, a call takes 16 bytes more of stack (bin/frames).
pub(crate) fn command_at(unread: Unread, kind: u8, at: usize) -> Command
    requires { at < 65536 }
    ensures { result ≡ command_of kind (field_at at (bytes_of unread.entry)) }
{
    let code = unread.byte(at);
    let size = unread.byte(at + 1);
    let n = count_of(size);
    let data = at + 2;
    let function = data_byte(unread, data, n, 0);
    let first = data_byte(unread, data, n, 1);
    Command {
        kind,
        code,
        size,
        function,
        first,
        all: word::word_of(
            first,
            data_byte(unread, data, n, 2),
            data_byte(unread, data, n, 3),
            data_byte(unread, data, n, 4),
        ),
    }
}

// What a code is about in a message of this type.
pub fn subject_of(kind: u8, code: u8) -> Subject
    ensures { result ≡ subject_of kind code }
{
    if kind == 0x01 {
        if code == 0x02 {
            return Subject::Ping;
        }
        return Subject::Unknown;
    }
    if kind != 0x02 {
        return Subject::Unknown;
    }
    match page::setting_of(code) {
        Some(s) => Subject::Setting(s),
        None => Subject::Unknown,
    }
}
