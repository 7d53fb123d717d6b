// A message that is answered by its sums and its type alone. Noise and data messages are most of what a line carries, so that they have
// a short way of their own.
ghost use Rattle.std.specs.Prelude.{◌≡◌};
ghost use Rattle.command.specs.Answer.{opening_error, refusing_by_type};

use crate::answer::Answer;
use crate::errors::is_kind;
use crate::place::{Progress, put_row};
use crate::settings::Settings;

// The error of a message by its sums and its type alone, before a look at the rest; 0 where the rest decides.
pub fn opening_error(good: bool, kind: u8) -> u8
    ensures { result ≡ opening_error good kind }
{
    if !good {
        return 1;
    }
    if kind == 0x7C {
        return 0;
    }
    if is_kind(kind) { 0 } else { 2 }
}

// Answers a message that has such an error: one row with the echo and the error. In a room under 166 bytes nothing is done. Neither the
// message nor the page is looked at.
pub fn answer_refused(kind: u8, echo: u8, error: u8, w: Settings, room: &mut [u8]) -> Answer
    ensures { record { answer = result; room = room.new } ≡ refusing_by_type kind echo error w room.old }
{
    if room.len() < 166 {
        return Answer {
            saved: false,
            error: 0,
            settings: w,
        };
    }
    let start = Progress {
        end: 4,
        saved: false,
        settings: w,
    };
    put_row(echo, error, start, room);
    let _ = message::seal_message(kind, 4, room);
    Answer {
        saved: false,
        error,
        settings: w,
    }
}
