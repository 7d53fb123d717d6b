// The verbs on the controller's side: command, numbered, append, reply, row.
use crate::output::{Bytes, Output};
use crate::text::{Fault, MOST, Words};
use crate::{messages, pages, text};
use client::Reply;
use refusal::{Refusal, number_of};
use std::io::{self, Write};

pub(crate) fn outcome(verb: &[u8], args: Words<'_>, out: &mut Output) -> Result<(), Fault> {
    match verb {
        b"command" => command(None, args, out),
        b"numbered" => numbered(args, out),
        b"append" => append(args, out),
        b"reply" => reply(args, 0, out),
        b"row" => row(args, out),
        _ => pages::outcome(verb, args, out),
    }
}

fn numbered(mut args: Words<'_>, out: &mut Output) -> Result<(), Fault> {
    let number = text::wide(args.word())?;
    command(Some(number), args, out)
}

// A command with a number, or without.
fn command(number: Option<u32>, mut args: Words<'_>, out: &mut Output) -> Result<(), Fault> {
    let code = text::octet(args.word())?;
    let function = text::small(args.word())?;
    let value = text::wide(args.word())?;
    let length = text::decimal(args.last())?;
    let mut room = [0xEEu8; MOST];
    let room = text::front(&mut room, length)?;
    let written = match number {
        None => client::write_command(code, function, value, room),
        Some(x) => client::write_numbered(x, code, function, value, room),
    };
    Ok(messages::say_written(written, room, out)?)
}

fn append(mut args: Words<'_>, out: &mut Output) -> Result<(), Fault> {
    let kind = text::octet(args.word())?;
    let code = text::octet(args.word())?;
    let function = text::small(args.word())?;
    let value = text::wide(args.word())?;
    let filled = text::decimal(args.word())?;
    let length = text::decimal(args.last())?;
    let mut room = [0xEEu8; MOST];
    let room = text::front(&mut room, length)?;
    let written = client::append_field(kind, code, function, value, filled, room);
    let (number, length) = (number_of(written), written.unwrap_or(0));
    write!(out, "{number}, length {length}, {}", Bytes(room))?;
    Ok(())
}

fn row(mut args: Words<'_>, out: &mut Output) -> Result<(), Fault> {
    let k = text::decimal(args.word())?;
    reply(args, k, out)
}

fn reply(args: Words<'_>, k: usize, out: &mut Output) -> Result<(), Fault> {
    let mut room = [0u8; MOST];
    let s = text::bytes(args.last(), &mut room)?;
    Ok(say_reply(client::read_reply(s, k), out)?)
}

fn say_reply(answer: Result<Reply, Refusal>, out: &mut Output) -> io::Result<()> {
    let number = number_of(answer);
    let r = answer.unwrap_or_default();
    let (kind, echo, error) = (r.kind, r.echo, r.error);
    write!(
        out,
        "{number}, type {kind:02X}, echo {echo:02X}, error {error}"
    )?;
    match r.value {
        None => write!(out, ", no value"),
        Some(x) => write!(out, ", value {x}"),
    }
}
