// The working values of the board: document 01's settings.
ghost use Rattle.std.specs.Prelude.{◌≡◌, ◌<◌, get_or};
ghost use Rattle.page.specs.Loading.{value_or};
ghost use Rattle.page.specs.Settings.{factory_value};
ghost use Rattle.command.specs.Answer.{looked_up, loaded_from, settings_from};
ghost use Rattle.command.specs.Effects.{working_value, with_working, Fits, settings_usable};

use page::Setting;

#[repr(C)]
#[derive(Clone, Copy, PartialEq, Eq)]
pub struct Settings {
    pub baud: u32,
    // the accelerometer's range
    pub accelerometer: u8,
    // the gyroscope's range
    pub gyroscope: u8,
}

pub(crate) fn wide(x: u8) -> u32
    ensures { (result ≡ x) × (result < 256) }
{
    x as u32
}

impl Settings {
    pub(crate) fn value(self, setting: Setting) -> u32
        ensures { result ≡ working_value self setting }
    {
        match setting {
            Setting::Baud => self.baud,
            Setting::Accelerometer => wide(self.accelerometer),
            Setting::Gyroscope => wide(self.gyroscope),
        }
    }

    // The settings with one value more in use.
    pub(crate) fn with(self, setting: Setting, value: u32) -> Self
        requires { Fits setting value }
        ensures { result ≡ with_working self setting value }
    {
        match setting {
            Setting::Baud => Settings {
                baud: value,
                accelerometer: self.accelerometer,
                gyroscope: self.gyroscope,
            },
            Setting::Accelerometer => Settings {
                baud: self.baud,
                accelerometer: value as u8,
                gyroscope: self.gyroscope,
            },
            Setting::Gyroscope => Settings {
                baud: self.baud,
                accelerometer: self.accelerometer,
                gyroscope: value as u8,
            },
        }
    }
}

// The first byte, 0 where there is none.
fn first_byte(s: &[u8]) -> u8
    ensures { result ≡ get_or s.now 0 0 }
{
    if 0 < s.len() { s[0] } else { 0 }
}

// The value of a setting in the body on the page if it has the entry, else the factory's value. No factory page is made for it: that
// would be 64 bytes of stack. The page is handed on as a part, all of it: a caller then passes it in registers.
#[inline(always)] // a feed takes less stack so (docs/DECISIONS.md)
pub(crate) fn looked_up(page: &[u8], setting: Setting) -> u32
    ensures { (result ≡ looked_up page.now setting) × Fits setting result }
{
    let whole = &page[0..];
    let Some(entry) = page::find_entry(whole, page::code_of(setting)) else {
        return page::factory_value(setting);
    };
    let body = page::part(whole, entry);
    match setting {
        Setting::Baud => word::number_of(body),
        Setting::Accelerometer => wide(first_byte(body)),
        Setting::Gyroscope => wide(first_byte(body)),
    }
}

// The value that starting sets: what is loaded, or the factory's where that is nothing, since the value is not usable on this board.
// Whether a value is loaded is tested by each caller of `looked_up`, so that it answers in a register.
fn start_value(page: &[u8], setting: Setting) -> u32
    ensures { (result ≡ value_or (loaded_from page.now setting) (factory_value setting)) × Fits setting result }
{
    let value = looked_up(page, setting);
    if page::usable(setting, value) {
        value
    } else {
        page::factory_value(setting)
    }
}

// The settings as starting sets them.
pub fn settings_from(page: &[u8]) -> Settings
    ensures { result ≡ settings_from page.now }
{
    let baud = start_value(page, Setting::Baud);
    let accelerometer = start_value(page, Setting::Accelerometer);
    let gyroscope = start_value(page, Setting::Gyroscope);
    Settings {
        baud,
        accelerometer: accelerometer as u8,
        gyroscope: gyroscope as u8,
    }
}

// Whether each working value is usable.
pub fn settings_usable(w: Settings) -> bool
    ensures { result ≡ settings_usable w }
{
    if !page::usable(Setting::Baud, w.baud) {
        return false;
    }
    if !page::usable(Setting::Accelerometer, wide(w.accelerometer)) {
        return false;
    }
    page::usable(Setting::Gyroscope, wide(w.gyroscope))
}
