// The rows of a reply, each placed where it stands in the reply: no row is copied.
ghost use Rattle.std.specs.Prelude.{◌≡◌, [], ◌∷◌, ◌%◌, ◌+◌, ◌≤◌, length};
ghost use Rattle.word.specs.Word.{word_bytes};
ghost use Rattle.message.specs.Write.{put_at};
ghost use Rattle.command.specs.Effects.{value_field};
ghost use Rattle.command.specs.Outcome.{reply_row};

use crate::settings::Settings;
use page::Setting;

// How far the answer to a message has come.
#[derive(Clone, Copy)]
pub struct Progress {
    // where the next row goes in the room
    pub end: usize,
    // the mark of a save: one was accepted, or a fresh number
    pub saved: bool,
    pub settings: Settings,
}

// The field 80 with echo and error.
pub(crate) fn put_row(echo: u8, error: u8, p: Progress, room: &mut [u8]) -> Progress
    requires { p.end + 4 ≤ length room.old }
    ensures value { result ≡ record { end = p.end + 4; saved = p.saved; settings = p.settings } }
    ensures room_after { room.new ≡ put_at p.end (reply_row echo error []) room.old }
{
    let at = p.end;
    let settings = p.settings;
    room[at] = 0x80;
    room[at + 1] = 0x02;
    room[at + 2] = echo;
    room[at + 3] = error;
    Progress {
        end: at + 4,
        saved: p.saved,
        settings,
    }
}

// The field with a value of one byte, and of four.
fn put_byte(code: u8, value: u32, at: usize, room: &mut [u8]) -> usize
    requires { at + 6 ≤ length room.old }
    ensures { (result ≡ at + 3) × (room.new ≡ put_at at (code ∷ 1 ∷ value % 256 ∷ []) room.old) }
{
    room[at] = code;
    room[at + 1] = 1;
    room[at + 2] = (value % 256) as u8;
    at + 3
}

fn put_word(code: u8, value: u32, at: usize, room: &mut [u8]) -> usize
    requires { at + 6 ≤ length room.old }
    ensures { (result ≡ at + 6) × (room.new ≡ put_at at (code ∷ 4 ∷ word_bytes value) room.old) }
{
    room[at] = code;
    room[at + 1] = 4;
    room[at + 2] = (value / 16777216 % 256) as u8;
    room[at + 3] = (value / 65536 % 256) as u8;
    room[at + 4] = (value / 256 % 256) as u8;
    room[at + 5] = (value % 256) as u8;
    at + 6
}

// The field with a setting's value; says where it ends.
pub(crate) fn put_value(setting: Setting, value: u32, at: usize, room: &mut [u8]) -> usize
    requires { at + 6 ≤ length room.old }
    ensures { (result ≡ at + length (value_field setting value)) × (room.new ≡ put_at at (value_field setting value) room.old) }
{
    let code = page::code_of(setting);
    match setting {
        Setting::Baud => put_word(code, value, at, room),
        Setting::Accelerometer => put_byte(code, value, at, room),
        Setting::Gyroscope => put_byte(code, value, at, room),
    }
}
