// The board that the lines of a script go on with, and its page.
use crate::output::{Bytes, Output, prefix};
use crate::tallies;
use crate::text::MOST;
use board::{Board, Fed, Port, Started, Stepped};
use command::Settings;
use std::io::{self, Write};
use totals::Tally;

// The page has the first `length` of the bytes, so that it can be one of more than 64 bytes too.
#[derive(Clone, Copy)]
pub struct Bench {
    pub board: Board,
    // Kept: no heap, so the page is an array with its length beside it
    bytes: [u8; 80],
    length: usize,
}

// A call to a port: a feed of a chunk, or with `quiet` a silence.
#[derive(Clone, Copy)]
pub struct Call<'a> {
    pub port: u8,
    pub quiet: bool,
    pub chunk: &'a [u8],
}

impl Bench {
    pub(crate) fn on(board: Board, bytes: [u8; 80], length: usize) -> Self {
        Bench {
            board,
            bytes,
            length,
        }
    }

    pub(crate) fn blank() -> Self {
        let bytes = [0xFFu8; 80];
        let started = board::start(Board::FULL, prefix(&bytes, 64));
        Bench::on(started.board, bytes, 64)
    }

    pub(crate) fn page(&self) -> &[u8] {
        prefix(&self.bytes, self.length)
    }

    // Port 0, or the other one.
    pub(crate) fn port(&self, number: u8) -> Port {
        if number == 0 {
            self.board.first
        } else {
            self.board.second
        }
    }

    pub(crate) fn set_port(&mut self, number: u8, port: Port) {
        if number == 0 {
            self.board.first = port;
        } else {
            self.board.second = port;
        }
    }

    // The totals of port 0, or of the other one.
    pub(crate) fn tally(&self, number: u8) -> Tally {
        if number == 0 {
            self.board.tally0
        } else {
            self.board.tally1
        }
    }

    pub(crate) fn set_tally(&mut self, number: u8, tally: Tally) {
        if number == 0 {
            self.board.tally0 = tally;
        } else {
            self.board.tally1 = tally;
        }
    }

    pub(crate) fn call(&mut self, call: Call<'_>, room: &mut [u8]) -> Fed {
        let mut bytes = self.bytes;
        let page = front(&mut bytes, self.length);
        let fed = if call.quiet {
            board::silence(call.port, self.board, room, page)
        } else {
            board::feed(call.port, self.board, call.chunk, room, page)
        };
        self.board = fed.board;
        self.bytes = bytes;
        fed
    }

    pub(crate) fn feed(&mut self, port: u8, chunk: &[u8], room: &mut [u8]) -> Fed {
        let call = Call {
            port,
            quiet: false,
            chunk,
        };
        self.call(call, room)
    }

    // Feeds a message to a port as if it held nothing. Both ports stay as they are: only the settings, the port's totals and the page go on.
    pub(crate) fn feed_alone(&mut self, port: u8, message: &[u8], room: &mut [u8]) -> Fed {
        let held = self.port(port);
        self.set_port(port, Port::new());
        let fed = self.feed(port, message, room);
        self.set_port(port, held);
        fed
    }

    // Whether a driver's record of the port, updated from what a call answered, has the totals that the board has after it.
    pub(crate) fn agrees_in_record(&self, port: u8, fed: &Fed, after: &Bench) -> bool {
        let before = self.port(port);
        let left = after.port(port);
        let counted = self.tally(port).counted(
            fed.number,
            fed.taken,
            fed.skipped,
            fed.error,
            before.held,
            left.held,
        );
        counted == after.tally(port)
    }

    // Whether a call in place answers and leaves what the call by value did, which answered `fed` and left `after` and `room`.
    pub(crate) fn agrees_in_place(
        &self,
        call: Call<'_>,
        fed: &Fed,
        after: &Bench,
        room: &[u8],
    ) -> bool {
        let named = self.port(call.port);
        let mut array = named.bytes;
        let mut replies = [0xEEu8; MOST];
        let mut page = self.bytes;
        let mut totals = tallies::row_of(self.tally(call.port));
        let s = self.call_in_place(
            call,
            &mut totals,
            &mut array,
            front(&mut replies, room.len()),
            front(&mut page, self.length),
        );
        let left = after.port(call.port);
        same_answer(s, fed, left.held)
            && tallies::tally_of(totals) == after.tally(call.port)
            && array == left.bytes
            && prefix(&replies, room.len()) == room
            && page == after.bytes
    }

    // A call in place. A silence that is given no chunk has a call of its own.
    fn call_in_place(
        &self,
        call: Call<'_>,
        totals: &mut [u64],
        bytes: &mut [u8],
        room: &mut [u8],
        page: &mut [u8],
    ) -> Stepped {
        let board = &self.board;
        let Call { port, quiet, chunk } = call;
        let (first, second) = (board.first.held, board.second.held);
        let (w, readonly) = (board.settings, board.readonly);
        if quiet && chunk.is_empty() {
            return board::silence_in_place(
                port, bytes, first, second, w, readonly, totals, room, page,
            );
        }
        board::call_in_place(
            port, bytes, first, second, w, readonly, quiet, totals, chunk, room, page,
        )
    }

    // A new board on the page as it stands, in the profile of this one.
    pub(crate) fn started(&self) -> Started {
        board::start(self.board.readonly, self.page())
    }

    // Only where it has changed.
    pub(crate) fn say_page(&self, before: &Bench, out: &mut Output) -> io::Result<()> {
        if self.same_page(before) {
            return Ok(());
        }
        write!(out, ", page {}", Bytes(self.page()))
    }

    pub(crate) fn same_page(&self, other: &Bench) -> bool {
        self.bytes == other.bytes
    }
}

// The first `n` bytes, all where there are fewer.
fn front(s: &mut [u8], n: usize) -> &mut [u8] {
    let end = n.min(s.len());
    &mut s[..end]
}

fn same_answer(s: Stepped, fed: &Fed, held: usize) -> bool {
    s.number == fed.number
        && s.taken == fed.taken
        && s.skipped == fed.skipped
        && s.error == fed.error
        && s.saved == fed.saved
        && s.held == held
        && s.settings == fed.board.settings
}

pub(crate) fn say_settings(w: Settings, out: &mut Output) -> io::Result<()> {
    write!(out, "{} {} {}", w.baud, w.accelerometer, w.gyroscope)
}

// The word for the mark of a save.
pub(crate) fn mark(saved: bool) -> &'static str {
    if saved { "saved" } else { "same" }
}

// A stream that is fed whole to port 0 of a board with a blank page, from one message to the next.
#[derive(Drop)]
pub struct Whole<'a> {
    pub bench: Bench,
    rest: &'a [u8],
    pub taken: usize,
    pub skipped: usize,
}

impl<'a> Whole<'a> {
    pub(crate) fn of(stream: &'a [u8]) -> Self {
        Whole {
            bench: Bench::blank(),
            rest: stream,
            taken: 0,
            skipped: 0,
        }
    }

    // Feeds what is left. The next message is answered, and its reply is in the room; there is none where a feed reports none.
    pub(crate) fn message(&mut self, room: &mut [u8]) -> Option<Fed> {
        let fed = self.bench.feed(0, self.rest, room);
        self.rest = self.rest.get(fed.taken..).unwrap_or(&[]);
        self.taken = self.taken.wrapping_add(fed.taken);
        self.skipped = self.skipped.wrapping_add(fed.skipped);
        if fed.number == 0 { Some(fed) } else { None }
    }
}
