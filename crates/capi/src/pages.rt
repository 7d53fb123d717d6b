// The start-up page: the test of one, its values read and written, a body copied, and the factory page.
ghost use Rattle.std.specs.Prelude.{◌≡◌};
ghost use Rattle.message.specs.Write.{writing_of};
ghost use Rattle.page.specs.Lookup.{values_in, body_of};
ghost use Rattle.page.specs.Page.{factory_page};
ghost use Rattle.page.specs.Sound.{page_number, page_writing};
ghost use Rattle.capi.specs.Flat.{flat_values, values_from, flat_page, pages_number, copying_on};

use crate::flat::{FlatPage, FlatValues};
use message::{Written, write_bytes};
use page::{Setting, Values};

// 0 where the page is blank or sound; 19: not 64 bytes; 20: neither.
#[unsafe(no_mangle)]
pub extern "C" fn ketphiroj_check_page(page: &[u8]) -> u8
    ensures { result ≡ page_number page.now }
{
    page::check_page(page)
}

// The values that a page holds, flat. They are read one by one: with a second caller of `values_of` the compiler would not put it into the
// one function that writes a page, and that would have them in memory.
fn flat_values(page: &[u8]) -> FlatValues
    ensures { result ≡ flat_values (values_in page.now) }
{
    let baud = page::stored_value(page, Setting::Baud);
    let accelerometer = page::stored_value(page, Setting::Accelerometer);
    let gyroscope = page::stored_value(page, Setting::Gyroscope);
    let number = page::last_number(page);
    FlatValues {
        has_baud: baud.is_some(),
        baud: baud.unwrap_or(0),
        has_accelerometer: accelerometer.is_some(),
        accelerometer: accelerometer.unwrap_or(0),
        has_gyroscope: gyroscope.is_some(),
        gyroscope: gyroscope.unwrap_or(0),
        has_last_number: number.is_some(),
        last_number: number.unwrap_or(0),
    }
}

// The values that a page keeps; number 0. 19: not 64 bytes; 20: neither blank nor sound; no value is there then.
#[unsafe(no_mangle)]
pub extern "C" fn ketphiroj_read_page(page: &[u8]) -> FlatPage
    ensures { result ≡ flat_page page.now }
{
    let number = page::check_page(page);
    let values = if number == 0 {
        flat_values(page)
    } else {
        FlatValues::default()
    };
    FlatPage { values, number }
}

impl From<FlatValues> for Values {
    ghost from_gives = { λ f v. v ≡ values_from f };

    fn from(flat: FlatValues) -> Values {
        Values {
            baud: flat.has_baud.then_some(flat.baud),
            accelerometer: flat.has_accelerometer.then_some(flat.accelerometer),
            gyroscope: flat.has_gyroscope.then_some(flat.gyroscope),
            number: flat.has_last_number.then_some(flat.last_number),
        }
    }
}

// Writes the page anew so that it keeps these values: 0. 19: not 64 bytes; 20: a value that is there is not storable. Nothing
// is written then.
#[unsafe(no_mangle)]
pub extern "C" fn ketphiroj_write_page(values: FlatValues, page: &mut [u8]) -> u8
    ensures { record { number = result; page = page.new } ≡ page_writing (values_from values) page.old }
{
    refusal::number_of(page::write_page(Values::from(values), page))
}

// The number of the first of two pages that is refused, 0 where both are blank or sound.
fn pages_number<'a>(saved: &'a [u8], factory: &'a [u8]) -> u8
    ensures { result ≡ pages_number saved.now factory.now }
{
    let number = page::check_page(saved);
    if number != 0 {
        return number;
    }
    page::check_page(factory)
}

// Copies the body under a code to the front of `room`: from the saved page if it has the entry, else from the factory page;
// number 0 and its length, 0 where neither page has it. 19, 20: the saved page, then the factory page, is not 64 bytes, or
// neither blank nor sound; 18: the room is too short. Nothing is written then.
#[unsafe(no_mangle)]
pub extern "C" fn ketphiroj_copy_body<'a>(
    saved: &'a [u8],
    factory: &'a [u8],
    code: u8,
    room: &mut [u8],
) -> Written
    ensures { record { answer = result; room = room.new } ≡ copying_on (pages_number saved.now factory.now) (body_of saved.now factory.now code) room.old }
{
    let number = pages_number(saved, factory);
    if number != 0 {
        return Written { number, length: 0 };
    }
    Written::from(write_bytes(page::body(saved, factory, code), room))
}

// Writes the factory page to the front of `room`: number 0 and 64. 18: the room is too short; nothing is written then.
#[unsafe(no_mangle)]
pub extern "C" fn ketphiroj_factory_page(room: &mut [u8]) -> Written
    ensures { record { answer = result; room = room.new } ≡ writing_of factory_page room.old }
{
    Written::from(write_bytes(&page::factory_page(), room))
}
