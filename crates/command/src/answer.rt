// The answer to a message: the reply, and what becomes of the settings and the page.
ghost use Rattle.std.specs.Prelude.{◌≡◌, true, false, ◌+◌, ◌-◌, ◌≤◌, ◌<◌, length, take, drop};
ghost use Rattle.page.specs.Page.{is_there};
ghost use Rattle.message.specs.Fields.{fields_of};
ghost use Rattle.message.specs.Write.{sealing};
ghost use Rattle.message.specs.Unread.{bytes_of};
ghost use Rattle.command.specs.Answer.{loaded_from, saved_on, page_access, answering};
ghost use Rattle.command.specs.Command.{value_for, commands_of};
ghost use Rattle.command.specs.Effects.{Fits, function_effect};
ghost use Rattle.command.specs.Errors.{fields_refused};
ghost use Rattle.command.specs.Outcome.{received_of, error_in, denial_of, effect_outcome, field_with};
ghost use Rattle.command.specs.Handle.{fields_in, command_outcome};
ghost use Rattle.command.specs.Payload.{bytes_in, Stands};
ghost use Rattle.command.specs.Place.{state_of, placed, fields_with, rights_behind, opened_outcome};

use crate::command::{Command, Subject, command_at, count_of, subject_of};
use crate::errors::{denial_of, field_error, value_for};
use crate::fields::{command_error, payload_end};
use crate::number::{Opened, open_message};
use crate::payload::Payload;
use crate::place::{Progress, put_row, put_value};
use crate::rights::Rights;
use crate::settings::{Settings, looked_up};
use message::Unread;
use page::Setting;

// What a message leaves, beside the reply and the page.
#[derive(Clone, Copy)]
pub struct Answer {
    // the mark of a save: one was accepted, or a fresh number
    pub saved: bool,
    // the first error in the reply, 0 where there is none
    pub error: u8,
    pub settings: Settings,
}

// The settings after an accepted function: 1 takes the value sent, 4 the loaded and 5 the factory's, the others none. Function 4 is accepted
// where a value is loaded, so that it is not tested again.
fn settings_after(function: u8, setting: Setting, sent: u32, w: Settings, page: &[u8]) -> Settings
    requires { Fits setting sent × (function ≡ 4 → is_there (loaded_from page.now setting) ≡ true) }
    ensures { result ≡ (function_effect function (loaded_from page.now) w setting sent).settings }
{
    if function == 1 {
        return w.with(setting, sent);
    }
    if function == 4 {
        return w.with(setting, looked_up(page, setting));
    }
    if function < 5 {
        return w;
    }
    w.with(setting, page::factory_value(setting))
}

// An accepted command about a setting, whose field 80 stands in the room.
fn obey(c: Command, setting: Setting, p: Progress, room: &mut [u8], page: &mut [u8]) -> Progress
    requires { (p.end + 6 ≤ length room.old) × (c.function ≡ 4 → is_there (loaded_from page.old setting) ≡ true) }
    ensures { record { done = result; room = room.new; page = page.new } ≡ placed p (effect_outcome saved_on (function_effect c.function (loaded_from page.old) p.settings setting (value_for setting c)) (state_of p page.old)) room.old }
{
    let function = c.function;
    let settings = p.settings;
    let end = p.end;
    let working = settings.value(setting);
    if function == 2 {
        return Progress {
            end: put_value(setting, working, end, room),
            saved: p.saved,
            settings,
        };
    }
    if function == 3 {
        page::put_setting(setting, working, page);
        return Progress {
            end,
            saved: true,
            settings,
        };
    }
    Progress {
        end,
        saved: p.saved,
        settings: settings_after(function, setting, value_for(setting, c), settings, page),
    }
}

// Answers one field, where functions 1, 3, 4 and 5 have the error `denial`: puts its row behind those before it and, where a save is
// accepted, writes the page.
fn answer_field(denial: u8, c: Command, p: Progress, room: &mut [u8], page: &mut [u8]) -> Progress
    requires { p.end + 10 ≤ length room.old }
    ensures { record { done = result; room = room.new; page = page.new } ≡ placed p (field_with page_access denial (state_of p page.old) c) room.old }
{
    let error = field_error(denial, c, page);
    let q = put_row(c.code, error, p, room);
    if error != 0 {
        return q;
    }
    match subject_of(c.kind, c.code) {
        Subject::Ping => q,
        Subject::Setting(s) => obey(c, s, q, room, page),
        Subject::Unknown => q,
    }
}

// Answers the fields that fill the payload of a command of type `kind`.
fn answer_fields(
    denial: u8,
    payload: Payload,
    kind: u8,
    start: Progress,
    room: &mut [u8],
    page: &mut [u8],
) -> Progress
    requires { Stands payload × (payload.to < 65536) × (payload.to ≤ length payload.unread.held.now + length payload.unread.chunk.now) × (fields_refused (fields_of (bytes_in payload)) ≡ false) × (start.end + 160 ≤ length room.old) }
    ensures { record { done = result; room = room.new; page = page.new } ≡ placed start (fields_with denial (state_of start page.old) (commands_of kind (fields_in (fields_of (bytes_in payload.entry))))) room.old }
{
    let to = payload.to;
    let mut at = payload.from;
    let mut p = start;
    while at < to {
        let c = command_at(payload.unread, kind, at);
        p = answer_field(denial, c, p, room, page);
        at += 2 + count_of(c.size);
    }
    p
}

// Seals the reply whose `n` bytes of rows stand in the room. Most replies have one row, without a value or with one of one or four
// bytes: with the length a constant the sums go faster.
// Kept: four cases (b). With one call a feed takes 16 bytes more of stack and a message 8 to 14 instructions more (bin/instructions).
fn seal(kind: u8, n: usize, room: &mut [u8])
    ensures { room.new ≡ (sealing kind n room.old).room }
{
    if n == 4 {
        let _ = message::seal_message(kind, 4, room);
        return;
    }
    if n == 7 {
        let _ = message::seal_message(kind, 7, room);
        return;
    }
    if n == 10 {
        let _ = message::seal_message(kind, 10, room);
        return;
    }
    let _ = message::seal_message(kind, n, room);
}

// The first error in the reply at the room's front. It is read where the room is at hand: kept from the first row on, it would take
// stack in every call.
fn error_in(room: &[u8]) -> u8
    ensures { result ≡ error_in room.now }
{
    if room.len() < 8 { 0 } else { room[7] }
}

// The answer whose rows stand in the room from byte 4 up to `p.end`: writes the header in front of them and the sums behind.
fn sealed(kind: u8, p: Progress, room: &mut [u8]) -> Answer
    requires { (4 ≤ p.end) × (p.end < 260) × (p.end + 2 ≤ length room.old) }
    ensures value { result ≡ record { saved = p.saved; error = error_in room.new; settings = p.settings } }
    ensures room_after { room.new ≡ (sealing kind (p.end - 4) room.old).room }
{
    let settings = p.settings;
    seal(kind, p.end - 4, room);
    let error = error_in(room);
    Answer {
        saved: p.saved,
        error,
        settings,
    }
}

// The error of functions 1, 3, 4 and 5 of a command: behind a number that was spent they are allowed.
fn denial_behind(numbered: bool, rights: Rights, page: &[u8]) -> u8
    ensures { result ≡ denial_of page_access (rights_behind numbered rights) page.now }
{
    if numbered {
        return 0;
    }
    denial_of(rights, page)
}

// Answers the command of type `kind` whose fields are to fill the payload. The page's number is
// looked at once for all of them, which do not change it.
fn answer_command(
    rights: Rights,
    numbered: bool,
    payload: Payload,
    kind: u8,
    start: Progress,
    room: &mut [u8],
    page: &mut [u8],
) -> Progress
    requires { Stands payload × (payload.to < 65536) × (start.end + 160 ≤ length room.old) }
    ensures { record { done = result; room = room.new; page = page.new } ≡ placed start (command_outcome page_access (rights_behind numbered rights) (state_of start page.old) kind (bytes_in payload.entry)) room.old }
{
    let whole_error = command_error(payload, kind);
    if whole_error != 0 {
        return put_row(payload.byte(0), whole_error, start, room);
    }
    let denial = denial_behind(numbered, rights, page);
    answer_fields(denial, payload, kind, start, room, page)
}

// Answers what a message was opened to, whose payload ends at `to`: one row with its error, or the command in it. That a numbered one
// is answered here too, and not by a call of its own, lets the compiler make one function of all this.
fn answer_opened(
    rights: Rights,
    unread: Unread,
    o: Opened,
    to: usize,
    start: Progress,
    room: &mut [u8],
    page: &mut [u8],
) -> Progress
    requires { (o.error ≡ 0 → (o.from ≤ to) × (to ≤ o.from + (length unread.held.now + length unread.chunk.now - o.from))) × (to < 65536) × (start.end + 160 ≤ length room.old) }
    ensures { record { done = result; room = room.new; page = page.new } ≡ placed start (opened_outcome rights o (state_of start page.old) (drop o.from (take to (bytes_of unread.entry)))) room.old }
{
    let payload = Payload {
        unread,
        from: o.from,
        to,
    };
    let refusal = o.error;
    if refusal != 0 {
        return put_row(payload.byte(0), refusal, start, room);
    }
    answer_command(rights, o.numbered, payload, o.kind, start, room, page)
}

// Answers the message at the front of `unread`, which has these rights on its port. The settings, the room and the page
// are taken as they are: a feed has tested them. In a room under 166 bytes nothing is done. A message that is damaged, or of a type
// other than 01, 02 and 7C, is answered by its type and first payload byte alone, so that noise and data messages are answered
// without a look at the rest.
pub fn answer_over(
    rights: Rights,
    unread: Unread,
    good: bool,
    w: Settings,
    room: &mut [u8],
    page: &mut [u8],
) -> Answer
    ensures { record { answer = result; room = room.new; page = page.new } ≡ answering rights (received_of good (bytes_of unread.entry)) w room.old page.old }
{
    if room.len() < 166 {
        return Answer {
            saved: false,
            error: 0,
            settings: w,
        };
    }
    let kind = unread.byte(2);
    let to = payload_end(unread);
    let payload = Payload {
        unread,
        from: 4,
        to,
    };
    let o = open_message(rights, payload, good, kind, page);
    let start = Progress {
        end: 4,
        saved: o.numbered,
        settings: w,
    };
    let p = answer_opened(rights, unread, o, to, start, room, page);
    sealed(kind, p, room)
}
