// Reads standard input as port 0 of a board with a blank page, and prints the listing of it: the heading, a line for each
// row of a reply, and the counts. What was read is listed and written before the next read, so that on a port that is being read a line
// appears when its message does.
//
// The totals of the port, for service, go to descriptor 3 when all was read and all was written, and only then: bin/listing learns from them
// that the listing is whole. What went wrong is said on standard error, and not by the exit status, which is 0. But where whoever reads the
// listing has left, nothing is said, and the status is 141, as that of other programs, which SIGPIPE ends.
#![tactic(auto)]

mod feeds;
mod output;

use feeds::Listing;
use std::fmt;
use std::io::{self, ErrorKind, Read};
use std::process::ExitCode;

// The status where whoever reads the listing has left.
const READER_LEFT: u8 = 141;

// Why a listing is not whole.
#[derive(Drop)]
pub enum Stop {
    Unread,
    Unwritten(io::Error),
}

impl From<io::Error> for Stop {
    fn from(e: io::Error) -> Stop {
        Stop::Unwritten(e)
    }
}

impl fmt::Display for Stop {
    fn fmt<W: fmt::Write>(&self, f: &mut fmt::Formatter<W>) -> fmt::Result {
        f.write_str(match self {
            Stop::Unread => "standard input could not be read",
            Stop::Unwritten(_) => "standard output could not be written",
        })
    }
}

fn main(rt: HostRuntime) -> ExitCode {
    match list(rt) {
        Ok(()) => ExitCode::SUCCESS,
        Err(Stop::Unwritten(e)) if e.kind() == ErrorKind::BrokenPipe => ExitCode::from(READER_LEFT),
        Err(why) => {
            // where that cannot be written either, the totals that are missing say it
            let _ = rt.eprint(format_args!("listing: {why}\n"));
            ExitCode::SUCCESS
        }
    }
}

fn list(rt: HostRuntime) -> Result<(), Stop> {
    let mut listing = Listing::start(rt);
    list_input(&mut rt.stdin(), &mut listing)?;
    listing.finish()?;
    listing.tell();
    Ok(())
}

// Feeds the input piece by piece, as reads give it, and then once more, at its end, with nothing. What is gathered is written before each
// read, which may wait for long. Nothing says that an input ends, so there is a number of turns that no run uses up.
fn list_input(input: &mut impl Read, listing: &mut Listing) -> Result<(), Stop> {
    let mut piece = [0u8; 32768];
    for _ in 0..u64::MAX {
        listing.write()?;
        let Ok(n) = input.read(&mut piece) else {
            break;
        };
        listing.feed_all(&piece[..n])?;
        if n == 0 {
            return Ok(());
        }
    }
    Err(Stop::Unread)
}
