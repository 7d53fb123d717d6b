// The verbs on one message: sum, whole, printed, write.
use crate::output::{Bytes, Output, prefix};
use crate::text::{Fault, MOST, Words};
use crate::{scans, text};
use refusal::{Refusal, number_of};
use std::io::{self, Write};

// What follows the line. A verb that is not here is for the next module.
pub(crate) fn outcome(verb: &[u8], args: Words<'_>, out: &mut Output) -> Result<(), Fault> {
    match verb {
        b"sum" => sum(args, out),
        b"whole" => whole(args, out),
        b"printed" => printed(args, out),
        b"write" => write(args, out),
        _ => scans::outcome(verb, args, out),
    }
}

// The sums before they wrap, and the library's.
fn sum(args: Words<'_>, out: &mut Output) -> Result<(), Fault> {
    let mut room = [0u8; MOST];
    let s = text::bytes(args.last(), &mut room)?;
    let (f1, f2) = plain_sums(s);
    let sums = message::Sums::new().over(s);
    write!(out, "{f1} {f2}, {:02X} {:02X}", sums.f1, sums.f2)?;
    Ok(())
}

// The same sums without end. Over the bytes of one line, neither comes near 2^32.
fn plain_sums(s: &[u8]) -> (u32, u32) {
    s.iter().fold((0u32, 0u32), |(f1, f2), b| {
        let f1 = f1.wrapping_add(u32::from(*b));
        (f1, f2.wrapping_add(f1))
    })
}

fn whole(args: Words<'_>, out: &mut Output) -> Result<(), Fault> {
    let mut room = [0u8; MOST];
    let s = text::bytes(args.last(), &mut room)?;
    let number = number_of(message::check_message(s));
    write!(out, "{number}")?;
    Ok(())
}

// The label is for the reader only.
fn printed(mut args: Words<'_>, out: &mut Output) -> Result<(), Fault> {
    let _label = args.word();
    let mut room = [0u8; MOST];
    let s = text::bytes(args.last(), &mut room)?;
    let number = number_of(message::check_message(s));
    scans::say_verdict(message::front_at(s, 0), out)?;
    write!(out, ", whole {number}")?;
    Ok(())
}

fn write(mut args: Words<'_>, out: &mut Output) -> Result<(), Fault> {
    let kind = text::octet(args.word())?;
    let length = text::decimal(args.word())?;
    let mut payload = [0u8; MOST];
    let payload = text::bytes(args.last(), &mut payload)?;
    let mut room = [0xEEu8; MOST];
    let room = text::front(&mut room, length)?;
    let written = message::write_message(kind, payload, room);
    Ok(say_written(written, room, out)?)
}

pub(crate) fn say_written(
    written: Result<usize, Refusal>,
    room: &[u8],
    out: &mut Output,
) -> io::Result<()> {
    let length = written.unwrap_or(0);
    write!(out, "{} {length} {}", number_of(written), Bytes(room))?;
    if written.is_err() {
        return Ok(());
    }
    let number = number_of(message::check_message(prefix(room, length)));
    write!(out, " whole {number}")
}
