// The verbs on a board that is started, or fed one message at a time, and nothing else: board, readonly, restart, arrays,
// lend, lent, handle, second, room.
use crate::bench::{self, Bench};
use crate::output::{Bytes, Output, prefix};
use crate::text::{Fault, MOST, Words};
use crate::{feeds, pages, text};
use board::{Board, Fed, Port, Started};
use command::Settings;
use std::io::{self, Write};

// A verb that is not here is for the next module.
pub(crate) fn outcome(
    verb: &[u8],
    args: Words<'_>,
    bench: &mut Bench,
    out: &mut Output,
) -> Result<(), Fault> {
    match verb {
        b"board" => start(Board::FULL, args, bench, out),
        b"readonly" => start(Board::READONLY, args, bench, out),
        b"restart" => restart(bench, out),
        b"arrays" => start_arrays(args, bench, out),
        b"lend" => lend(args, bench, out),
        b"lent" => Ok(write!(out, "{}", Bytes(bench.page()))?),
        b"handle" => handle(0, args, bench, out),
        b"second" => handle(1, args, bench, out),
        b"room" => handle_within(args, bench, out),
        _ => feeds::outcome(verb, args, bench, out),
    }
}

fn start(
    readonly: bool,
    args: Words<'_>,
    bench: &mut Bench,
    out: &mut Output,
) -> Result<(), Fault> {
    let mut bytes = [0u8; 80];
    let page = pages::read_page(args.last(), &mut bytes)?;
    let n = page.len();
    let started = board::start(readonly, page);
    *bench = Bench::on(started.board, bytes, n);
    Ok(say_started(&started, out)?)
}

fn say_started(started: &Started, out: &mut Output) -> io::Result<()> {
    let board = &started.board;
    say_start(started.number, board.settings, board.readonly, out)
}

// The full profile is not said.
fn say_start(number: u8, settings: Settings, readonly: bool, out: &mut Output) -> io::Result<()> {
    write!(out, "{number}, ")?;
    bench::say_settings(settings, out)?;
    if readonly {
        out.write_all(b", read-only")?;
    }
    Ok(())
}

fn restart(bench: &mut Bench, out: &mut Output) -> Result<(), Fault> {
    let started = bench.started();
    bench.board = started.board;
    Ok(say_started(&started, out)?)
}

// Another page under the same board.
fn lend(args: Words<'_>, bench: &mut Bench, out: &mut Output) -> Result<(), Fault> {
    let mut bytes = [0u8; 80];
    let n = pages::read_page(args.last(), &mut bytes)?.len();
    *bench = Bench::on(bench.board, bytes, n);
    Ok(write!(out, "{n} bytes")?)
}

// A start in place on two arrays of EE, in the profile of the board: the number, the settings, and both arrays afterwards.
fn start_arrays(mut args: Words<'_>, bench: &Bench, out: &mut Output) -> Result<(), Fault> {
    let n = text::decimal(args.word())?;
    let m = text::decimal(args.word())?;
    let mut bytes = [0u8; 80];
    let page = pages::read_page(args.last(), &mut bytes)?;
    let mut one = [0xEEu8; MOST];
    let mut two = [0xEEu8; MOST];
    let first = text::front(&mut one, n)?;
    let second = text::front(&mut two, m)?;
    let started = board::start_in_place(bench.board.readonly, first, second, page);
    say_start(started.number, started.settings, started.readonly, out)?;
    Ok(write!(out, ", ports {} {}", Bytes(first), Bytes(second))?)
}

fn handle(port: u8, args: Words<'_>, bench: &mut Bench, out: &mut Output) -> Result<(), Fault> {
    let mut bytes = [0u8; MOST];
    let message = text::bytes(args.last(), &mut bytes)?;
    let before = *bench;
    let mut room = [0xEEu8; Port::REPLY];
    let fed = bench.feed_alone(port, message, &mut room);
    say_handled(&fed, &room, out)?;
    Ok(bench.say_page(&before, out)?)
}

fn handle_within(mut args: Words<'_>, bench: &mut Bench, out: &mut Output) -> Result<(), Fault> {
    let length = text::decimal(args.word())?;
    let mut bytes = [0u8; MOST];
    let message = text::bytes(args.last(), &mut bytes)?;
    let mut array = [0xEEu8; MOST];
    let room = text::front(&mut array, length)?;
    let fed = bench.feed_alone(0, message, room);
    Ok(write!(out, "{}, {}", fed.number, Bytes(room))?)
}

// Byte 3 of a reply is its payload's length, byte 7 the error of its first row. Where nothing is answered there is no reply.
fn say_handled(fed: &Fed, room: &[u8; 166], out: &mut Output) -> io::Result<()> {
    write!(out, "{}", fed.number)?;
    if fed.number != 0 {
        return Ok(());
    }
    write!(out, ", error {}, {}, ", room[7], bench::mark(fed.saved))?;
    bench::say_settings(fed.board.settings, out)?;
    write!(out, ", reply {}", Bytes(prefix(room, size_with(room[3]))))
}

// The size of a message with `l` payload bytes.
pub(crate) fn size_with(l: u8) -> usize {
    6 + usize::from(l)
}
