// The verbs on unread bytes: front, seek, drain, split, cut. A seek is `ended` where a silence mark stands behind its bytes.
use crate::output::{Output, prefix};
use crate::text::{Fault, MOST, Words};
use crate::{commands, text};
use std::io::{self, Write};
use stream::{Sought, Verdict};

pub(crate) fn outcome(verb: &[u8], args: Words<'_>, out: &mut Output) -> Result<(), Fault> {
    match verb {
        b"front" => front(args, out),
        b"seek" => seek(args, false, out),
        b"drain" => seek(args, true, out),
        b"split" => split(args, out),
        b"cut" => cut(args, out),
        _ => commands::outcome(verb, args, out),
    }
}

fn front(mut args: Words<'_>, out: &mut Output) -> Result<(), Fault> {
    let at = text::decimal(args.word())?;
    let mut room = [0u8; MOST];
    let s = text::bytes(args.last(), &mut room)?;
    Ok(say_verdict(message::front_at(s, at), out)?)
}

pub(crate) fn say_verdict(v: Verdict, out: &mut Output) -> io::Result<()> {
    match v {
        Verdict::Skip => write!(out, "skip"),
        Verdict::Undecided => write!(out, "undecided"),
        Verdict::Whole(n, good) => write!(out, "{} {n}", quality(good)),
    }
}

fn quality(good: bool) -> &'static str {
    if good { "good" } else { "damaged" }
}

fn say_sought(s: Sought, out: &mut Output) -> io::Result<()> {
    match s {
        Sought::Starved(k) => write!(out, "starved {k}"),
        Sought::Found(k, n, good) => write!(out, "{} {k} {n}", quality(good)),
    }
}

fn seek(args: Words<'_>, ended: bool, out: &mut Output) -> Result<(), Fault> {
    let mut room = [0u8; MOST];
    let s = text::bytes(args.last(), &mut room)?;
    Ok(say_sought(message::seek(s, ended), out)?)
}

fn split(mut args: Words<'_>, out: &mut Output) -> Result<(), Fault> {
    let mut bytes = [0u8; MOST];
    let held = text::bytes(args.word(), &mut bytes)?;
    let mut more = [0u8; MOST];
    let chunk = text::bytes(args.last(), &mut more)?;
    Ok(say_split(held, chunk, out)?)
}

fn say_split(held: &[u8], chunk: &[u8], out: &mut Output) -> io::Result<()> {
    let mut room = [0u8; 2 * MOST];
    for (b, x) in room.iter_mut().zip(held.iter().chain(chunk)) {
        *b = *x;
    }
    let s = prefix(&room, held.len() + chunk.len());
    say_sought(message::seek(s, false), out)?;
    if agree(s, held, chunk) {
        return out.write_all(b", same");
    }
    out.fault(", differ")
}

fn cut(args: Words<'_>, out: &mut Output) -> Result<(), Fault> {
    let mut room = [0u8; MOST];
    let s = text::bytes(args.last(), &mut room)?;
    Ok(say_cuts(s, out)?)
}

// The most that a port holds.
const HELD: usize = 260;

// Ends at the first cut that changes an answer.
fn say_cuts(s: &[u8], out: &mut Output) -> io::Result<()> {
    say_sought(message::seek(s, false), out)?;
    let cuts = s.len().min(HELD) + 1;
    match (0..cuts).find(|k| !agree_at(s, *k)) {
        Some(k) => {
            out.fault(", differ at ")?;
            write!(out, "{k}")
        }
        None => write!(out, ", same at all {cuts} cuts"),
    }
}

fn agree_at(s: &[u8], k: usize) -> bool {
    match s.split_at_checked(k) {
        Some((held, chunk)) => agree(s, held, chunk),
        None => false,
    }
}

// Whether every call answers of `held` and `chunk` as it does of `s`, the two in one.
fn agree(s: &[u8], held: &[u8], chunk: &[u8]) -> bool {
    fronts_agree(s, held, chunk)
        && seeks_agree(s, held, chunk, false)
        && seeks_agree(s, held, chunk, true)
}

// At every place, the end, and one past the end.
fn fronts_agree(s: &[u8], held: &[u8], chunk: &[u8]) -> bool {
    let both = message::Unread { held, chunk };
    (0..s.len() + 2).all(|at| message::front_at(s, at) == both.front(at))
}

// In an array, the held bytes are followed by others, which must not matter.
fn seeks_agree(s: &[u8], held: &[u8], chunk: &[u8], ended: bool) -> bool {
    let n = held.len();
    let mut array = [0xEEu8; MOST + 3];
    message::copy_front(held, &mut array);
    let one = message::seek(s, ended);
    let over = message::Unread { held, chunk }.seek(ended);
    let kept = message::seek_held(prefix(&array, n + 3), n, chunk, ended);
    one == over && one == kept
}
