// The verbs on a board that is fed: feed, silence, held, settings, port.
use crate::bench::{self, Bench, Call};
use crate::output::{Bytes, Output, prefix};
use crate::text::{Fault, MOST, Words};
use crate::{tallies, text};
use board::{Fed, Port};
use command::Settings;
use std::io::{self, Write};

pub(crate) fn outcome(
    verb: &[u8],
    args: Words<'_>,
    bench: &mut Bench,
    out: &mut Output,
) -> Result<(), Fault> {
    match verb {
        b"feed" => feed(args, bench, out),
        b"silence" => silence(args, bench, out),
        b"held" => hold(args, bench, out),
        b"settings" => set(args, bench, out),
        b"port" => show(args, bench, out),
        _ => tallies::outcome(verb, args, bench, out),
    }
}

// A Ping, which a silence must not look at.
const UNREAD: [u8; 8] = [0xA5, 0xA5, 0x01, 0x02, 0x02, 0x00, 0x4F, 0x25];

fn feed(mut args: Words<'_>, bench: &mut Bench, out: &mut Output) -> Result<(), Fault> {
    let port = text::small(args.word())?;
    let length = text::decimal(args.word())?;
    let mut bytes = [0u8; MOST];
    let chunk = text::bytes(args.last(), &mut bytes)?;
    let call = Call {
        port,
        quiet: false,
        chunk,
    };
    make(call, length, bench, out)
}

fn silence(mut args: Words<'_>, bench: &mut Bench, out: &mut Output) -> Result<(), Fault> {
    let port = text::small(args.word())?;
    let length = text::decimal(args.last())?;
    let call = Call {
        port,
        quiet: true,
        chunk: &[],
    };
    make(call, length, bench, out)
}

// Makes a call with a reply room of this length. Where the calls in place and a driver's record agree, and the error told is the first in
// the reply, nothing is said of them.
fn make(call: Call<'_>, length: usize, bench: &mut Bench, out: &mut Output) -> Result<(), Fault> {
    let mut array = [0xEEu8; MOST];
    let room = text::front(&mut array, length)?;
    let before = *bench;
    let fed = bench.call(call, room);
    say_fed(&fed, out)?;
    write!(out, ", room {}", Bytes(room))?;
    bench.say_page(&before, out)?;
    if !agrees_in_place(call, &before, &fed, bench, room) {
        out.fault(", in place differs")?;
    }
    if !before.agrees_in_record(call.port, &fed, bench) {
        out.fault(", record differs")?;
    }
    if fed.error != first_error(fed.number, room) {
        out.fault(", error differs")?;
    }
    Ok(())
}

// A silence with a chunk too, which it must not look at.
fn agrees_in_place(call: Call<'_>, before: &Bench, fed: &Fed, after: &Bench, room: &[u8]) -> bool {
    let chunk = &UNREAD;
    before.agrees_in_place(call, fed, after, room)
        && (!call.quiet || before.agrees_in_place(Call { chunk, ..call }, fed, after, room))
}

// The first error in the reply at the room's front.
fn first_error(number: u8, room: &[u8]) -> u8 {
    if number != 0 {
        return 0;
    }
    room.get(7).copied().unwrap_or(0)
}

fn say_fed(fed: &Fed, out: &mut Output) -> io::Result<()> {
    let board = &fed.board;
    let (number, taken, skipped) = (fed.number, fed.taken, fed.skipped);
    let mark = bench::mark(fed.saved);
    write!(out, "{number}, taken {taken}, skipped {skipped}, {mark}, ")?;
    bench::say_settings(board.settings, out)?;
    write!(out, ", held {} {}", board.first.held, board.second.held)
}

// Makes a port of the bytes given, zeros behind them, whatever the count says.
fn hold(mut args: Words<'_>, bench: &mut Bench, out: &mut Output) -> Result<(), Fault> {
    let number = text::port(args.word())?;
    let held = text::decimal(args.word())?;
    let mut bytes = [0u8; Port::ROOM];
    let n = text::bytes(args.last(), &mut bytes)?.len();
    bench.set_port(number, Port { bytes, held });
    Ok(write!(out, "{n} bytes")?)
}

fn set(mut args: Words<'_>, bench: &mut Bench, out: &mut Output) -> Result<(), Fault> {
    let baud = text::wide(args.word())?;
    let accelerometer = text::small(args.word())?;
    let gyroscope = text::small(args.last())?;
    let settings = Settings {
        baud,
        accelerometer,
        gyroscope,
    };
    bench.board.settings = settings;
    Ok(bench::say_settings(settings, out)?)
}

fn show(args: Words<'_>, bench: &Bench, out: &mut Output) -> Result<(), Fault> {
    let number = text::port(args.last())?;
    Ok(say_port(&bench.port(number), out)?)
}

fn say_port(port: &Port, out: &mut Output) -> io::Result<()> {
    let held = port.held;
    write!(out, "{held} held, {}", Bytes(prefix(&port.bytes, held)))?;
    if port.bytes.iter().skip(held).all(|b| *b == 0) {
        return out.write_all(b", then zero");
    }
    out.write_all(b", then not zero")
}
