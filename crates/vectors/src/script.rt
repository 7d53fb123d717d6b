// The script, read into a block and run line by line.
ghost use Rattle.std.specs.Prelude.{◌≡◌, ◌≤◌, IfOk, length};

use crate::bench::Bench;
use crate::boards;
use crate::output::Output;
use crate::text::{Fault, Words};
use std::fmt;
use std::io::{self, ErrorKind, Read, Write};

// A loop that reads has to end: more reads than a script takes.
const READS: u64 = 0x1_0000_0000;

// Why a script ends early.
#[derive(Drop)]
pub enum Stop {
    LongLine,
    LongScript,
    Unread,
    Unwritten(io::Error),
}

impl From<io::Error> for Stop {
    fn from(e: io::Error) -> Stop {
        Stop::Unwritten(e)
    }
}

impl fmt::Display for Stop {
    fn fmt<W: fmt::Write>(&self, f: &mut fmt::Formatter<W>) -> fmt::Result {
        f.write_str(match self {
            Stop::LongLine => "a line is too long",
            Stop::LongScript => "the script is too long",
            Stop::Unread => "the script could not be read",
            Stop::Unwritten(_) => "standard output could not be written",
        })
    }
}

// `block` has to have room for the longest line and its end.
pub(crate) fn run(rt: HostRuntime, block: &mut [u8], out: &mut Output) -> Result<(), Stop> {
    let mut bench = Bench::blank();
    let mut kept = 0;
    for _ in 0..READS {
        let Ok(n) = rt.stdin().read(&mut block[kept..]) else {
            return Err(stopped(Stop::Unread, out));
        };
        if n == 0 {
            return finish(&block[..kept], &mut bench, out);
        }
        kept = run_block(block, kept + n, &mut bench, out)?;
        if kept == block.len() {
            return Err(stopped(Stop::LongLine, out));
        }
    }
    Err(stopped(Stop::LongScript, out))
}

// The last line may have no end.
fn finish(line: &[u8], bench: &mut Bench, out: &mut Output) -> Result<(), Stop> {
    if !line.is_empty() {
        run_line(line, bench, out)?;
    }
    Ok(out.flush()?)
}

// Writes what is left, and answers why the script ends here: where whoever reads the output has left, that is why.
fn stopped(why: Stop, out: &mut Output) -> Stop {
    match out.flush() {
        Err(e) if e.kind() == ErrorKind::BrokenPipe => Stop::Unwritten(e),
        _ => why,
    }
}

// Runs the whole lines of the first `end` bytes, moves the bytes behind them to the front, and answers how many these are.
fn run_block(block: &mut [u8], end: usize, bench: &mut Bench, out: &mut Output) -> io::Result<usize>
    requires { end ≤ length block.old }
    ensures kept { IfOk result (λ n. n ≤ length block.new) }
    ensures block { length block.new ≡ length block.old }
{
    let Some(last) = block[..end].iter().rposition(|b| *b == b'\n') else {
        return Ok(end);
    };
    run_lines(&block[..last], bench, out)?;
    block.copy_within(last + 1..end, 0);
    Ok(end - (last + 1))
}

fn run_lines(lines: &[u8], bench: &mut Bench, out: &mut Output) -> io::Result<()> {
    for line in lines.split(|b| *b == b'\n') {
        run_line(line, bench, out)?;
    }
    Ok(())
}

// The line, and what came of it. An empty line, and a remark after `#`, are only copied.
fn run_line(line: &[u8], bench: &mut Bench, out: &mut Output) -> io::Result<()> {
    out.write_all(line)?;
    if let [first, ..] = line
        && *first != b'#'
    {
        out.write_all(b": ")?;
        run_words(Words(line), bench, out)?;
    }
    out.write_all(b"\n")
}

// After `bad` stands a line that must be one that is not known, or a bad one.
fn run_words(line: Words<'_>, bench: &mut Bench, out: &mut Output) -> io::Result<()> {
    let mut args = line;
    if let b"bad" = args.word() {
        let before = out.faults;
        run_verb(args, bench, out)?;
        return out.expect_fault(before);
    }
    run_verb(line, bench, out)
}

fn run_verb(line: Words<'_>, bench: &mut Bench, out: &mut Output) -> io::Result<()> {
    let mut args = line;
    let verb = args.word();
    match boards::outcome(verb, args, bench, out) {
        Ok(()) => Ok(()),
        Err(Fault::BadLine) => out.fault("bad line"),
        Err(Fault::UnknownLine) => out.fault("unknown line"),
        Err(Fault::Unwritten(e)) => Err(e),
    }
}
