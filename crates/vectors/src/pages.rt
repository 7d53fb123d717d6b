// The verbs on the start-up page: page, body, pages.
use crate::output::{Bytes, Output};
use crate::text::{Fault, MOST, Words};
use crate::{samples, text};
use page::Values;
use refusal::Refusal;
use std::io::{self, Write};

pub(crate) fn outcome(verb: &[u8], args: Words<'_>, out: &mut Output) -> Result<(), Fault> {
    match verb {
        b"page" => page(args, out),
        b"body" => body(args, out),
        b"pages" => Ok(pages(out)?),
        _ => samples::outcome(verb, args, out),
    }
}

// Bytes, or one of two words: `blank`, `factory`.
pub(crate) fn read_page<'a>(word: &[u8], room: &'a mut [u8]) -> Result<&'a [u8], Fault> {
    match word {
        b"blank" => text::bytes(b"FF*64", room),
        b"factory" => factory(room),
        _ => text::bytes(word, room),
    }
}

fn factory(room: &mut [u8]) -> Result<&[u8], Fault> {
    let page = page::factory_page();
    let front = text::front(room, page.len())?;
    for (b, x) in front.iter_mut().zip(&page) {
        *b = *x;
    }
    Ok(front)
}

fn page(args: Words<'_>, out: &mut Output) -> Result<(), Fault> {
    let mut room = [0u8; MOST];
    let s = read_page(args.last(), &mut room)?;
    let number = page::check_page(s);
    write!(out, "{number},")?;
    Ok(say_values(page::values_of(s), out)?)
}

fn say_values(values: Values, out: &mut Output) -> io::Result<()> {
    let baud = values.baud;
    let accelerometer = values.accelerometer;
    let gyroscope = values.gyroscope;
    let number = values.number;
    say_stored(baud, out)?;
    say_stored(accelerometer, out)?;
    say_stored(gyroscope, out)?;
    say_stored(number, out)
}

fn say_stored(stored: Option<u32>, out: &mut Output) -> io::Result<()> {
    match stored {
        None => write!(out, " -"),
        Some(x) => write!(out, " {x}"),
    }
}

fn body(mut args: Words<'_>, out: &mut Output) -> Result<(), Fault> {
    let code = text::octet(args.word())?;
    let mut room = [0u8; MOST];
    let s = read_page(args.last(), &mut room)?;
    let factory = page::factory_page();
    Ok(write!(out, "{}", Bytes(page::body(s, &factory, code)))?)
}

// What came of the writings: how many write_page wrote, how many of these pages check_page found sound and values_of
// read back, and how many write_page refused with 20 and left the page as it was.
#[derive(Drop)]
struct Tally {
    written: u32,
    sound: u32,
    read_back: u32,
    refused: u32,
}

// Each setting has no value, a storable one, or one that is just out of range.
fn pages(out: &mut Output) -> io::Result<()> {
    let mut tally = Tally {
        written: 0,
        sound: 0,
        read_back: 0,
        refused: 0,
    };
    for baud in 0..19 {
        tally.try_baud(baud_choice(baud));
    }
    say_tally(&tally, out)
}

fn number_choice(i: u32) -> Option<u32> {
    match i {
        0 => None,
        1 => Some(0),
        2 => Some(0xFFFF_FFFF),
        _ => Some(0x0102_0304),
    }
}

// The values from 0 to `last`, then none.
fn choice(i: u32, last: u32) -> Option<u32> {
    if i > last { None } else { Some(i) }
}

// Each rate, one less and one more; then none.
fn baud_choice(i: u32) -> Option<u32> {
    match i / 3 {
        0 => Some(9599 + i % 3),
        1 => Some(19199 + i % 3),
        2 => Some(115199 + i % 3),
        3 => Some(230399 + i % 3),
        4 => Some(460799 + i % 3),
        5 => Some(921599 + i % 3),
        _ => None,
    }
}

impl Tally {
    fn try_baud(&mut self, baud: Option<u32>) {
        for i in 0..7 {
            self.try_ranges(baud, choice(i, 5));
        }
    }

    fn try_ranges(&mut self, baud: Option<u32>, accelerometer: Option<u32>) {
        for i in 0..10 {
            self.try_numbers(baud, accelerometer, choice(i, 8));
        }
    }

    // No number, the smallest, the largest, and one of four different bytes.
    fn try_numbers(
        &mut self,
        baud: Option<u32>,
        accelerometer: Option<u32>,
        gyroscope: Option<u32>,
    ) {
        for i in 0..4 {
            self.try_values(Values {
                baud,
                accelerometer,
                gyroscope,
                number: number_choice(i),
            });
        }
    }

    fn try_values(&mut self, values: Values) {
        let mut s = [0x5Au8; 64];
        let answer = page::write_page(values, &mut s);
        let refused = answer == Err(Refusal::Page) && s == [0x5Au8; 64];
        let written = answer.is_ok();
        let sound = written && page::check_page(&s) == 0;
        let read_back = written && page::values_of(&s) == values;
        count_if(&mut self.written, written);
        count_if(&mut self.sound, sound);
        count_if(&mut self.read_back, read_back);
        count_if(&mut self.refused, refused);
    }
}

fn count_if(n: &mut u32, more: bool) {
    *n = n.wrapping_add(u32::from(more));
}

fn say_tally(tally: &Tally, out: &mut Output) -> io::Result<()> {
    let (written, sound) = (tally.written, tally.sound);
    let (read_back, refused) = (tally.read_back, tally.refused);
    write!(
        out,
        "{written} written, {sound} sound, {read_back} read back; {refused} refused"
    )
}
