// Putting a value in: the page keeps its other entries and is written anew, in its place. Nothing of a page stands on the stack.
ghost use Rattle.std.specs.Prelude.{◌≡◌};
ghost use Rattle.refusal.specs.Refusal.{number_of};
ghost use Rattle.page.specs.Draft.{with_coded};
ghost use Rattle.page.specs.Lookup.{values_in};
ghost use Rattle.page.specs.Page.{with_key};
ghost use Rattle.page.specs.Settings.{value_of, last_number, key_of};
ghost use Rattle.page.specs.Sound.{page_writing};

use crate::setting::{Setting, Values, code_of};
use crate::store::{all_storable, fill_page, values_of};
use refusal::Refusal;

// The values with one put in under a code, the others kept. A code that stands for nothing changes none.
fn with_code(values: Values, code: u8, value: u32) -> Values
    ensures { result ≡ with_coded values (key_of code) value }
{
    match code {
        0x01 => Values {
            baud: Some(value),
            ..values
        },
        0x07 => Values {
            accelerometer: Some(value),
            ..values
        },
        0x08 => Values {
            gyroscope: Some(value),
            ..values
        },
        0x70 => Values {
            number: Some(value),
            ..values
        },
        _ => values,
    }
}

// Puts a value in under a code. All that puts a value into a page comes here, by a code and not by the values: the compiler then keeps
// one function for it, which has the values in registers.
fn put(code: u8, value: u32, page: &mut [u8])
    ensures { page.new ≡ (page_writing (with_coded (values_in page.old) (key_of code) value) page.old).page }
{
    let kept = with_code(values_of(page), code, value);
    let Some(page) = page.as_mut_array::<64>() else {
        return;
    };
    if all_storable(kept) {
        fill_page(kept, page);
    }
}

// Puts the value of a setting in. A page that is not 64 bytes, or that would not be sound then, stays as it is.
pub fn put_setting(setting: Setting, value: u32, page: &mut [u8])
    ensures { page.new ≡ (page_writing (with_key (values_in page.old) (value_of setting) value) page.old).page }
{
    put(code_of(setting), value, page);
}

// Puts the last number accepted in. A page that is not 64 bytes, or that would not be sound then, stays as it is.
pub fn put_last_number(number: u32, page: &mut [u8])
    ensures { page.new ≡ (page_writing (with_key (values_in page.old) last_number number) page.old).page }
{
    put(0x70, number, page);
}

// Writes the page anew so that it keeps these values. Refused, with nothing written, where it is not 64 bytes or a value that is there is
// not storable.
pub fn write_page(values: Values, page: &mut [u8]) -> Result<(), Refusal>
    ensures { record { number = number_of result; page = page.new } ≡ page_writing values page.old }
{
    let Some(page) = page.as_mut_array::<64>() else {
        return Err(Refusal::PageSize);
    };
    if !all_storable(values) {
        return Err(Refusal::Page);
    }
    fill_page(values, page);
    Ok(())
}
