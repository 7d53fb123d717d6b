// Starting.
ghost use Rattle.std.specs.Prelude.{◌≡◌};
ghost use Rattle.board.specs.Profile.{full};
ghost use Rattle.board.specs.Start.{factory_settings, start_on, start_of, start_place_of};

use crate::board::{Board, Started};
use crate::port::Port;
use command::{Settings, settings_from};
use page::Setting;
use totals::Tally;

fn factory_settings() -> Settings
    ensures { result ≡ factory_settings }
{
    let baud = page::factory_value(Setting::Baud);
    let accelerometer = page::factory_value(Setting::Accelerometer);
    let gyroscope = page::factory_value(Setting::Gyroscope);
    Settings {
        baud,
        accelerometer: accelerometer as u8,
        gyroscope: gyroscope as u8,
    }
}

// The settings of a start: those that the page keeps, or the factory's where the page is refused.
fn start_settings(number: u8, page: &[u8]) -> Settings
    ensures { result ≡ (start_on number full page.now).board.settings }
{
    if number != 0 {
        return factory_settings();
    }
    settings_from(page)
}

// Starts a board in a profile, on the settings that the page keeps, or on the factory's where it has none. The answer is one expression:
// with a `let` for the board or a port, that would stand on the stack beside the answer.
pub fn start(readonly: bool, page: &[u8]) -> Started
    ensures { result ≡ start_of readonly page.now }
{
    let number = page::check_page(page);
    let settings = start_settings(number, page);
    Started {
        number,
        board: Board {
            first: Port::new(),
            second: Port::new(),
            settings,
            readonly,
            tally0: Tally::new(),
            tally1: Tally::new(),
        },
    }
}

// What a start in place answers. Both ports hold nothing; their bytes stay in their arrays. Their totals are zero.
#[repr(C)]
#[derive(Clone, Copy)]
pub struct StartedInPlace {
    pub settings: Settings,
    // document 01's number
    // Kept: a number in the answer, the C interface
    pub number: u8,
    // the profile that was asked for
    pub readonly: bool,
}

// A start for a caller that keeps the board: `first` and `second` are the arrays of its ports, which are written in place, and
// the answer has the settings and the profile.
pub fn start_in_place(
    readonly: bool,
    first: &mut [u8],
    second: &mut [u8],
    page: &[u8],
) -> StartedInPlace
    ensures { record { answer = result; first = first.new; second = second.new } ≡ start_place_of readonly first.old second.old page.now }
{
    if first.len() != Port::ROOM {
        return StartedInPlace {
            settings: factory_settings(),
            number: 17,
            readonly,
        };
    }
    if second.len() != Port::ROOM {
        return StartedInPlace {
            settings: factory_settings(),
            number: 17,
            readonly,
        };
    }
    let number = page::check_page(page);
    let settings = start_settings(number, page);
    first.fill(0);
    second.fill(0);
    StartedInPlace {
        settings,
        number,
        readonly,
    }
}
