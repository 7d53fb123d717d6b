// The verbs on data messages: field, data.
use crate::output::{Bytes, Output};
use crate::text::{Fault, MOST, Words};
use crate::{messages, text};
use refusal::number_of;
use sample::{Axes, FieldRead, Sample, axes_from_bits};
use std::io::{self, Write};

pub(crate) fn outcome(verb: &[u8], args: Words<'_>, out: &mut Output) -> Result<(), Fault> {
    match verb {
        b"field" => field(args, out),
        b"data" => data(args, out),
        _ => Err(Fault::UnknownLine),
    }
}

fn field(mut args: Words<'_>, out: &mut Output) -> Result<(), Fault> {
    let k = text::decimal(args.word())?;
    let mut room = [0u8; MOST];
    let s = text::bytes(args.last(), &mut room)?;
    let answer = sample::read_field(s, k);
    let read = answer.unwrap_or(FieldRead {
        field: Sample::Unknown(0, 0),
        place: 0,
        size: 0,
    });
    write!(out, "{}", number_of(answer))?;
    say_field(read.field, out)?;
    let (size, place) = (read.size, read.place);
    let found = Bytes(sample::field_data(s, k));
    Ok(write!(out, ", {size} at {place}, data {found}")?)
}

fn say_field(field: Sample, out: &mut Output) -> io::Result<()> {
    match field {
        Sample::Acceleration(a) => {
            write!(out, ", acceleration")?;
            say_axes(a, out)
        }
        Sample::Rate(a) => {
            write!(out, ", rate")?;
            say_axes(a, out)
        }
        Sample::Unknown(code, place) => write!(out, ", unknown {code:02X} at {place}"),
    }
}

fn say_axes(a: Axes, out: &mut Output) -> io::Result<()> {
    say_axis(a.x, a.x_nan, out)?;
    say_axis(a.y, a.y_nan, out)?;
    say_axis(a.z, a.z_nan, out)
}

// The pattern of the float, or for a NaN the one beside it.
fn say_axis(x: f32, nan: u32, out: &mut Output) -> io::Result<()> {
    if x.is_nan() {
        return write!(out, " {nan:08X}");
    }
    write!(out, " {:08X}", f32::to_bits(x))
}

fn data(mut args: Words<'_>, out: &mut Output) -> Result<(), Fault> {
    let length = text::decimal(args.word())?;
    let acceleration = read_axes(&mut args)?;
    let rate = read_axes(&mut args)?;
    if !args.last().is_empty() {
        return Err(Fault::BadLine);
    }
    let mut array = [0xEEu8; MOST];
    let room = text::front(&mut array, length)?;
    let written = sample::write_data(acceleration, rate, room);
    Ok(messages::say_written(written, room, out)?)
}

// The axes whose patterns are the next three words.
fn read_axes(args: &mut Words<'_>) -> Result<Axes, Fault> {
    let x = read_word(args.word())?;
    let y = read_word(args.word())?;
    let z = read_word(args.word())?;
    Ok(axes_from_bits(x, y, z))
}

// Four bytes, the highest first.
fn read_word(word: &[u8]) -> Result<u32, Fault> {
    let mut room = [0u8; 4];
    match text::bytes(word, &mut room)? {
        [a, b, c, d] => Ok(u32::from_be_bytes([*a, *b, *c, *d])),
        _ => Err(Fault::BadLine),
    }
}
