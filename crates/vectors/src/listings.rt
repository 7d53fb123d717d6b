// The verb `list`: the listing of some bytes.
use crate::bench::Whole;
use crate::output::Output;
use crate::text::{Fault, MOST, Words};
use crate::{messages, text};
use board::Port;
use listing::{LONGEST_COUNTS, LONGEST_LINE};
use std::io::{self, Write};

// A feed that reports a message leaves fewer bytes, held or in the chunk.
pub const TURNS: usize = MOST + 1;

pub(crate) fn outcome(verb: &[u8], args: Words<'_>, out: &mut Output) -> Result<(), Fault> {
    match verb {
        b"list" => list(args, out),
        _ => messages::outcome(verb, args, out),
    }
}

fn list(args: Words<'_>, out: &mut Output) -> Result<(), Fault> {
    let mut bytes = [0u8; MOST];
    let mut whole = Whole::of(text::bytes(args.last(), &mut bytes)?);
    say_heading(out)?;
    for _ in 0..TURNS {
        let mut room = [0u8; Port::REPLY];
        let Some(fed) = whole.message(&mut room) else {
            break;
        };
        say_rows(&room, fed.saved, out)?;
    }
    Ok(say_counts(&whole, out)?)
}

// Adds a line of a listing, up to its end, as a line of its own.
fn say_line(line: &[u8], out: &mut Output) -> io::Result<()> {
    out.write_all(b"\n")?;
    out.write_all(line.split(|b| *b == b'\n').next().unwrap_or(line))
}

fn say_heading(out: &mut Output) -> io::Result<()> {
    let mut line = [0u8; LONGEST_COUNTS];
    let _ = listing::write_heading(&mut line);
    say_line(&line, out)
}

// A line for each row of the reply, whose type is byte 2 and whose payload has as many bytes as byte 3 says. It has at most 16 rows.
fn say_rows(reply: &[u8; 166], saved: bool, out: &mut Output) -> io::Result<()> {
    let end = 4 + usize::from(reply[3]);
    let mut rows = reply.get(4..end).unwrap_or(&[]);
    for _ in 0..16 {
        let [_, _, echo, error, ..] = rows else {
            break;
        };
        say_row(reply[2], *echo, *error, saved, out)?;
        rows = rows.get(listing::row_size(rows)..).unwrap_or(&[]);
    }
    Ok(())
}

fn say_row(kind: u8, echo: u8, error: u8, saved: bool, out: &mut Output) -> io::Result<()> {
    let mut line = [0u8; LONGEST_LINE];
    let _ = listing::write_line(kind, echo, error, saved, &mut line);
    say_line(&line, out)
}

fn say_counts(whole: &Whole<'_>, out: &mut Output) -> io::Result<()> {
    let mut line = [0u8; LONGEST_COUNTS];
    let (taken, skipped) = (whole.taken as u64, whole.skipped as u64);
    let port = whole.bench.port(0);
    let _ = listing::write_counts(taken, skipped, port.held, &mut line);
    say_line(&line, out)
}
