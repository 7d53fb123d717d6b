// The feeds of a listing.
ghost use Rattle.lister.specs.Moves.{Moves};

use crate::output::{self, Lines};
use board::{Board, Port, Stepped};
use command::Settings;
use std::io;
use totals::Tally;

// How far a listing has come. The board is fed in place: port 0 has its bytes, of which it holds some, and its totals, and port 1 holds
// nothing.
#[derive(Drop)]
pub struct Listing {
    rt: HostRuntime,
    bytes: [u8; Port::ROOM],
    pub held: usize,
    totals: [u64; Tally::ROW],
    // the working values, and the page
    settings: Settings,
    page: [u8; 64],
    lines: Lines,
}

impl Listing {
    pub(crate) fn start(rt: HostRuntime) -> Self {
        let page = [0xFFu8; 64];
        let started = board::start(Board::FULL, &page);
        Listing {
            rt,
            bytes: [0u8; Port::ROOM],
            held: 0,
            totals: [0u64; Tally::ROW],
            settings: started.board.settings,
            page,
            lines: Lines::start(rt),
        }
    }

    pub(crate) fn write(&mut self) -> io::Result<()> {
        self.lines.write()
    }

    fn feed(&mut self, chunk: &[u8], reply: &mut [u8]) -> Stepped
        ensures { Moves self.old.held chunk.now result.number result.taken self.new.held }
    {
        let fed = board::feed_in_place(
            0,
            &mut self.bytes,
            self.held,
            0,
            self.settings,
            Board::FULL,
            &mut self.totals,
            chunk,
            reply,
            &mut self.page,
        );
        self.held = fed.held;
        self.settings = fed.settings;
        fed
    }

    // Feeds a piece until a feed answers 1, and gathers the lines of each message that is found. That a feed which answers 0 leaves fewer
    // bytes, held or in the piece, is in the contract of `feed`.
    pub(crate) fn feed_all(&mut self, piece: &[u8]) -> io::Result<()> {
        let mut reply = [0u8; Port::REPLY];
        let mut rest = piece;
        loop {
            let fed = self.feed(rest, &mut reply);
            if fed.number != 0 {
                return Ok(());
            }
            self.lines.message(&reply, fed.saved)?;
            rest = &rest[fed.taken..];
        }
    }

    // Writes the counts, behind all the lines.
    pub(crate) fn finish(&mut self) -> io::Result<()> {
        self.lines
            .counts(self.totals[0], self.totals[1], self.held)?;
        self.lines.write()
    }

    // Tells the totals, where all was read and written.
    pub(crate) fn tell(&self) {
        let _ = output::write_totals(&self.rt, &self.totals, self.held);
    }
}
