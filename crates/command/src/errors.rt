// The error of one field, first that applies; and the types of commands.
ghost use Rattle.std.specs.Prelude.{◌≡◌, ◌&&◌, ◌||◌, not, eqb};
ghost use Rattle.command.specs.Command.{value_for};
ghost use Rattle.command.specs.Effects.{Fits};
ghost use Rattle.page.specs.Page.{is_there};
ghost use Rattle.page.specs.Settings.{storable, not_on_this_board};
ghost use Rattle.message.specs.Whole.{refuse};
ghost use Rattle.command.specs.Answer.{loaded_from, page_access};
ghost use Rattle.command.specs.Errors.{is_unknown, is_function, size_right, function_right, field_wrong, not_on_board, alters, denied, is_kind, field_error};
ghost use Rattle.command.specs.Outcome.{denial_of};
ghost use Rattle.command.specs.declared.command.Subject.TheVariants.{Setting as About};

use crate::command::{Command, Subject, count_of, subject_of};
use crate::rights::Rights;
use crate::settings::{looked_up, wide};
use page::Setting;

// The value that a command carries for a setting.
pub(crate) fn value_for(setting: Setting, c: Command) -> u32
    ensures { (result ≡ value_for setting c) × Fits setting result }
{
    match setting {
        Setting::Baud => c.all,
        Setting::Accelerometer => wide(c.first),
        Setting::Gyroscope => wide(c.first),
    }
}

// Kept: tests by `if` and `match` (b). With `&&`, `||` and `matches!` in this file a feed takes 264 bytes of stack, over 256 (bin/frames).
fn size_right(full: usize, size: usize, function: u8) -> bool
    ensures { result ≡ eqb size full || eqb size 1 && not (eqb function 1) }
{
    if size == full {
        return true;
    }
    if size != 1 {
        return false;
    }
    function != 1
}

// The error of a value sent with function 1. Most are usable, so that is tested first.
// Kept: numbers (b). With an enum of the errors and `Result<(), Error>` a feed takes 264 bytes of stack, over 256 (bin/frames).
fn value_error(setting: Setting, value: u32) -> u8
    ensures { result ≡ refuse (not (storable setting value)) 4 (refuse (not_on_this_board setting value) 6 0) }
{
    if page::usable(setting, value) {
        return 0;
    }
    if page::storable(setting, value) { 6 } else { 4 }
}

// The error of function 4, by what is loaded.
// Kept: numbers (b). With an enum of the errors and `Result<(), Error>` a feed takes 264 bytes of stack, over 256 (bin/frames).
fn load_error(setting: Setting, page: &[u8]) -> u8
    ensures { result ≡ refuse (not (is_there (loaded_from page.now setting))) 6 0 }
{
    if page::usable(setting, looked_up(page, setting)) {
        0
    } else {
        6
    }
}

// Whether the size or the function of a setting's field is wrong.
// Kept: tests by `if` and `match` (b). With `&&`, `||` and `matches!` in this file a feed takes 264 bytes of stack, over 256 (bin/frames).
fn is_malformed(setting: Setting, c: Command) -> bool
    ensures { result ≡ not (size_right (About setting) c) || not (function_right (About setting) c) }
{
    let function = c.function;
    if !size_right(1 + page::value_size(setting), count_of(c.size), function) {
        return true;
    }
    if function < 1 {
        return true;
    }
    5 < function
}

// The error of a setting's own field: 4 by its size or its function, then 4 or 6 by the value that is sent or loaded.
// Kept: numbers (b). With an enum of the errors and `Result<(), Error>` a feed takes 264 bytes of stack, over 256 (bin/frames).
fn setting_error(setting: Setting, c: Command, page: &[u8]) -> u8
    ensures { result ≡ refuse (field_wrong (About setting) c) 4 (refuse (not_on_board (About setting) (loaded_from page.now) c) 6 0) }
{
    if is_malformed(setting, c) {
        return 4;
    }
    if c.function == 1 {
        return value_error(setting, value_for(setting, c));
    }
    if c.function == 4 {
        return load_error(setting, page);
    }
    0
}

// Ping has size 0.
// Kept: numbers (b). With an enum of the errors and `Result<(), Error>` a feed takes 264 bytes of stack, over 256 (bin/frames).
fn ping_error(size: u8) -> u8
    ensures { result ≡ refuse (not (eqb size 0)) 4 0 }
{
    if size == 0 { 0 } else { 4 }
}

// The error of a field that is not denied: 3 where its code is not one of its type's.
// Kept: numbers (b). With an enum of the errors and `Result<(), Error>` a feed takes 264 bytes of stack, over 256 (bin/frames).
fn own_error(subject: Subject, c: Command, page: &[u8]) -> u8
    ensures { result ≡ refuse (is_unknown subject) 3 (refuse (field_wrong subject c) 4 (refuse (not_on_board subject (loaded_from page.now) c) 6 0)) }
{
    match subject {
        Subject::Ping => ping_error(c.size),
        Subject::Setting(s) => setting_error(s, c, page),
        Subject::Unknown => 3,
    }
}

// Whether it is function 1, 3, 4 or 5.
// Kept: tests by `if` and `match` (b). With `&&`, `||` and `matches!` in this file a feed takes 264 bytes of stack, over 256 (bin/frames).
fn is_altering(function: u8) -> bool
    ensures { result ≡ is_function function && not (eqb function 2) }
{
    if function < 1 {
        return false;
    }
    if function == 2 {
        return false;
    }
    function <= 5
}

// Whether it is such a function of a setting.
// Kept: tests by `if` and `match` (b). With `&&`, `||` and `matches!` in this file a feed takes 264 bytes of stack, over 256 (bin/frames).
fn alters(subject: Subject, c: Command) -> bool
    ensures { result ≡ alters subject c }
{
    match subject {
        Subject::Ping => false,
        Subject::Setting(_) => is_altering(c.function),
        Subject::Unknown => false,
    }
}

// The error of functions 1, 3, 4 and 5 under these rights, 0 where they are allowed.
// Kept: numbers (b). With an enum of the errors and `Result<(), Error>` a feed takes 264 bytes of stack, over 256 (bin/frames).
pub(crate) fn denial_of(rights: Rights, page: &[u8]) -> u8
    ensures { result ≡ denial_of page_access rights page.now }
{
    if rights.readonly {
        return 7;
    }
    if !rights.guarded {
        return 0;
    }
    if page::last_number(page).is_some() {
        5
    } else {
        0
    }
}

// Whether a field asks for such a function where that is an error.
// Kept: tests by `if` and `match` (b). With `&&`, `||` and `matches!` in this file a feed takes 264 bytes of stack, over 256 (bin/frames).
fn is_denied(denial: u8, subject: Subject, c: Command) -> bool
    ensures { result ≡ denied denial subject c }
{
    if denial == 0 {
        return false;
    }
    alters(subject, c)
}

// The error of one field, where functions 1, 3, 4 and 5 have the error `denial`. A code that is not one of its type's alters nothing, so
// that it is never denied.
// Kept: numbers (b). With an enum of the errors and `Result<(), Error>` a feed takes 264 bytes of stack, over 256 (bin/frames).
pub(crate) fn field_error(denial: u8, c: Command, page: &[u8]) -> u8
    ensures { result ≡ field_error denial (loaded_from page.now) c }
{
    let subject = subject_of(c.kind, c.code);
    if is_denied(denial, subject, c) {
        return denial;
    }
    own_error(subject, c, page)
}

// The type is 01 or 02.
// Kept: tests by `if` and `match` (b). With `&&`, `||` and `matches!` in this file a feed takes 264 bytes of stack, over 256 (bin/frames).
pub(crate) fn is_kind(kind: u8) -> bool
    ensures { result ≡ is_kind kind }
{
    if kind == 0x01 {
        return true;
    }
    kind == 0x02
}
