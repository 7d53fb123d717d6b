// The verb `stream`: the same bytes in pieces of several sizes, to either port alone and to both in turn.
use crate::bench::{Bench, Whole};
use crate::boards::size_with;
use crate::output::{Bytes, Output, prefix};
use crate::text::{Fault, MOST, Words};
use crate::{listings, text};
use board::{Fed, Port};
use std::io::{self, Write};

// A feed reports a message, of which there are no more than bytes, or uses up a piece.
const TURNS: usize = 2 * MOST + 2;

// Sizes of pieces, each with that of the other port's where both are fed in turn.
const SIZES: [(usize, usize); 8] = [
    (1, 5),
    (2, 7),
    (3, 11),
    (5, 64),
    (7, MOST),
    (11, 1),
    (64, 2),
    (MOST, 3),
];

// How far the stream is fed to one port, and what has come of it.
#[derive(Clone, Copy)]
struct Track {
    // the bytes of a piece; 0 where the port is not fed
    size: usize,
    // bytes taken, and where the piece that is being fed ends
    taken: usize,
    end: usize,
    done: bool,
    messages: usize,
    skipped: usize,
    // digests of the replies, and of type, echo and error of their first rows
    replies: u64,
    marks: u64,
}

// A board that is fed, and how far each port has come.
#[derive(Drop)]
struct Run {
    bench: Bench,
    first: Track,
    second: Track,
}

pub(crate) fn outcome(verb: &[u8], args: Words<'_>, out: &mut Output) -> Result<(), Fault> {
    match verb {
        b"stream" => stream(args, out),
        _ => listings::outcome(verb, args, out),
    }
}

fn stream(args: Words<'_>, out: &mut Output) -> Result<(), Fault> {
    let mut room = [0u8; MOST];
    let s = text::bytes(args.last(), &mut room)?;
    let whole = feed_pieces(s, MOST, 0);
    say_run(&whole, out)?;
    say_replies(s, out)?;
    Ok(say_sizes(s, &whole, out)?)
}

fn say_run(run: &Run, out: &mut Output) -> io::Result<()> {
    let track = run.first;
    let port = run.bench.port(0);
    let (messages, taken, skipped) = (track.messages, track.taken, track.skipped);
    write!(
        out,
        "{messages} reported, taken {taken}, skipped {skipped}, held {}",
        port.held
    )
}

// The stream in one piece, from one message to the next.
fn say_replies(s: &[u8], out: &mut Output) -> io::Result<()> {
    let mut whole = Whole::of(s);
    for _ in 0..TURNS {
        let mut room = [0xEEu8; Port::REPLY];
        let Some(_) = whole.message(&mut room) else {
            break;
        };
        write!(out, ", {}", Bytes(reply_in(&room)))?;
    }
    Ok(())
}

// The message at the front.
fn reply_in(room: &[u8; 166]) -> &[u8] {
    prefix(room, size_with(room[3]))
}

// Ends at the first size that changes what a port gives.
fn say_sizes(s: &[u8], whole: &Run, out: &mut Output) -> io::Result<()> {
    for (size, other) in &SIZES {
        if !size_agrees(s, whole, *size, *other) {
            out.fault("; differs at size ")?;
            return write!(out, "{size}");
        }
    }
    out.write_all(b"; same")
}

// Each port alone gives what the whole stream gave, and leaves the other fresh. With both in turn the settings are shared,
// and so is what a reply reports of them: the counts are the same, and type, echo and error of each reply's first row.
fn size_agrees(s: &[u8], whole: &Run, size: usize, other: usize) -> bool {
    let track = whole.first;
    let bench = &whole.bench;
    let held = bench.port(0);
    let fresh = bench.port(1);
    let first = feed_pieces(s, size, 0);
    let second = feed_pieces(s, 0, size);
    let both = feed_pieces(s, size, other);
    all_agree(&first, 0, track, bench)
        && all_agree(&second, 1, track, bench)
        && same_port(&first.bench.port(1), &fresh)
        && same_port(&second.bench.port(0), &fresh)
        && counts_agree(&both, 0, track, &held)
        && counts_agree(&both, 1, track, &held)
}

impl Run {
    fn track(&self, port: u8) -> Track {
        if port == 0 { self.first } else { self.second }
    }
}

fn counts_agree(run: &Run, port: u8, track: Track, held: &Port) -> bool {
    let t = run.track(port);
    t.taken == track.taken
        && t.messages == track.messages
        && t.skipped == track.skipped
        && t.marks == track.marks
        && same_port(&run.bench.port(port), held)
}

fn all_agree(run: &Run, port: u8, track: Track, after: &Bench) -> bool {
    let t = run.track(port);
    counts_agree(run, port, track, &after.port(0))
        && t.replies == track.replies
        && run.bench.board.settings == after.board.settings
        && run.bench.same_page(after)
}

fn same_port(a: &Port, b: &Port) -> bool {
    a.held == b.held && a.bytes == b.bytes
}

// Feeds the stream to each port in pieces of its size, the ports in turn.
fn feed_pieces(s: &[u8], first: usize, second: usize) -> Run {
    let mut bench = Bench::blank();
    let mut one = Track::new(first);
    let mut two = Track::new(second);
    for _ in 0..TURNS {
        one.advance(&mut bench, 0, s);
        two.advance(&mut bench, 1, s);
    }
    Run {
        bench,
        first: one,
        second: two,
    }
}

impl Track {
    fn new(size: usize) -> Self {
        Track {
            size,
            taken: 0,
            end: 0,
            done: size == 0,
            messages: 0,
            skipped: 0,
            replies: 0,
            marks: 0,
        }
    }

    // One feed of a port that is not done.
    fn advance(&mut self, bench: &mut Bench, port: u8, s: &[u8]) {
        if self.done {
            return;
        }
        let mut room = [0xEEu8; Port::REPLY];
        let piece = s.get(self.taken..self.end).unwrap_or(&[]);
        let fed = bench.feed(port, piece, &mut room);
        self.count(&fed, &room, s.len());
    }

    fn count(&mut self, fed: &Fed, room: &[u8; 166], length: usize) {
        self.taken = self.taken.wrapping_add(fed.taken);
        self.skipped = self.skipped.wrapping_add(fed.skipped);
        if fed.number == 0 {
            self.messages = self.messages.wrapping_add(1);
            self.replies = digest(self.replies, reply_in(room));
            self.marks = digest(self.marks, &[room[2], room[6], room[7]]);
            return;
        }
        self.done = fed.number != 1 || self.end == length;
        // where the next piece ends
        self.end = self.end.wrapping_add(self.size).min(length);
    }
}

// Reduced by a prime of 32 bits at each step, so that the next digest fits.
fn digest(from: u64, s: &[u8]) -> u64 {
    s.iter()
        .fold(from, |d, b| (d % 4294967291) * 257 + u64::from(*b) + 1)
}
