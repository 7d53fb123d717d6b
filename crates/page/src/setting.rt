// The settings of the board that commands alter, and the values that the page keeps.
ghost use Rattle.std.specs.Prelude.{◌≡◌, ◌&&◌, eqb, leb};
ghost use Rattle.page.specs.Settings.{code_of, setting_of, some_of, baud_rates, usable, storable, readable, value_size, factory_value};

#[derive(Clone, Copy)]
pub enum Setting {
    Baud,
    // the accelerometer's range
    Accelerometer,
    // the gyroscope's range
    Gyroscope,
}

// The values that a page keeps: each is there or not.
#[derive(Clone, Copy, PartialEq, Eq)]
pub struct Values {
    pub baud: Option<u32>,
    pub accelerometer: Option<u32>,
    pub gyroscope: Option<u32>,
    // the last number accepted
    pub number: Option<u32>,
}

// The setting that a code stands for.
pub fn setting_of(code: u8) -> Option<Setting>
    ensures { result ≡ setting_of code }
{
    match code {
        0x01 => Some(Setting::Baud),
        0x07 => Some(Setting::Accelerometer),
        0x08 => Some(Setting::Gyroscope),
        _ => None,
    }
}

pub fn code_of(setting: Setting) -> u8
    ensures { result ≡ code_of setting }
{
    match setting {
        Setting::Baud => 0x01,
        Setting::Accelerometer => 0x07,
        Setting::Gyroscope => 0x08,
    }
}

fn is_baud_rate(value: u32) -> bool
    ensures { result ≡ some_of (eqb value) baud_rates }
{
    match value {
        9600 | 19200 | 115200 | 230400 | 460800 | 921600 => true,
        _ => false,
    }
}

fn between(first: u32, value: u32, last: u32) -> bool
    ensures { result ≡ leb first value && leb value last }
{
    if first <= value { value <= last } else { false }
}

// Whether this board can use the value: as a working value, and so sent with function 1.
pub fn usable(setting: Setting, value: u32) -> bool
    ensures { result ≡ usable setting value }
{
    match setting {
        Setting::Baud => is_baud_rate(value),
        Setting::Accelerometer => between(1, value, 4),
        Setting::Gyroscope => between(1, value, 5),
    }
}

// Whether a page can hold the value: older boards saved two ranges more of the gyroscope.
pub fn storable(setting: Setting, value: u32) -> bool
    ensures { result ≡ storable setting value }
{
    match setting {
        Setting::Baud => is_baud_rate(value),
        Setting::Accelerometer => between(1, value, 4),
        Setting::Gyroscope => between(1, value, 7),
    }
}

// Whether a reply can report the value. Older boards reply too: today that is what a page can hold.
pub fn readable(setting: Setting, value: u32) -> bool
    ensures { result ≡ readable setting value }
{
    storable(setting, value)
}

// The number of bytes of a value.
pub fn value_size(setting: Setting) -> usize
    ensures { result ≡ value_size setting }
{
    match setting {
        Setting::Baud => 4,
        Setting::Accelerometer => 1,
        Setting::Gyroscope => 1,
    }
}

pub fn factory_value(setting: Setting) -> u32
    ensures { result ≡ factory_value setting }
{
    match setting {
        Setting::Baud => 115200,
        Setting::Accelerometer => 0x02,
        Setting::Gyroscope => 0x03,
    }
}
