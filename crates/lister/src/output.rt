// What the program prints, gathered in a block that is written when the next line might not fit, and before each read.
ghost use Rattle.std.specs.Prelude.{◌+◌, ◌≤◌, ◌≡◌, IfOk, length, take};

use std::fs::{Files, OpenOptions};
use std::io::Write;
use std::os::unix::fs::PermissionsExt;
use std::{fs, io};

const BLOCK: usize = 65536;

#[derive(Drop)]
pub struct Lines {
    rt: HostRuntime,
    // Kept: no heap, so what is gathered is an array with its length beside it
    block: [u8; BLOCK],
    used: usize,
    ghost inside: { used ≤ 65536 },
}

impl Lines {
    // The heading comes first.
    pub(crate) fn start(rt: HostRuntime) -> Self {
        let mut lines = Lines {
            rt,
            block: [0u8; BLOCK],
            used: 0,
        };
        lines.used = listing::write_heading(&mut lines.block).unwrap_or(0);
        lines
    }

    // Writes what is gathered. After a write that failed the listing ends: what is written later would stand in the place of what is missing.
    pub(crate) fn write(&mut self) -> io::Result<()>
        ensures { self.new.used ≡ 0 }
    {
        let used = self.used;
        self.used = 0;
        let all = &self.block[..];
        self.rt.write_all(&all[..used])
    }

    // The next `size` bytes stand behind what is gathered, or at the front once that is written.
    fn make_room(&mut self, size: usize) -> io::Result<()> {
        if size <= BLOCK - self.used {
            return Ok(());
        }
        self.write()
    }

    // The lines of a message, of whose reply byte 2 is the type and byte 3 the payload's length: one for each row, of which byte 2 is the
    // echo, byte 3 the error.
    pub(crate) fn message(&mut self, reply: &[u8], saved: bool) -> io::Result<()> {
        let [_, _, kind, count, payload @ ..] = reply else {
            return Ok(());
        };
        let mut rows = prefix(payload, usize::from(*count));
        while let [_, _, echo, error, ..] = rows {
            self.line(*kind, *echo, *error, saved)?;
            rows = &rows[listing::row_size(rows).min(rows.len())..];
        }
        Ok(())
    }

    fn line(&mut self, kind: u8, echo: u8, error: u8, saved: bool) -> io::Result<()> {
        self.make_room(listing::LONGEST_LINE)?;
        let from = self.used;
        let line = listing::write_line(kind, echo, error, saved, &mut self.block[from..]);
        self.used = from + line.unwrap_or(0);
        Ok(())
    }

    pub(crate) fn counts(&mut self, taken: u64, skipped: u64, held: usize) -> io::Result<()> {
        self.make_room(listing::LONGEST_COUNTS)?;
        let from = self.used;
        let counts = listing::write_counts(taken, skipped, held, &mut self.block[from..]);
        self.used = from + counts.unwrap_or(0);
        Ok(())
    }
}

// The first `n` bytes, all where there are fewer: in a caller's proof nothing is left to show.
fn prefix(s: &[u8], n: usize) -> &[u8]
    ensures bound { length result.now ≤ n }
    ensures value { result.now ≡ take n s.now }
{
    s.get(..n).unwrap_or(s)
}

// Puts a total behind `used` bytes of the text.
fn put_total(n: u64, used: usize, text: &mut [u8]) -> usize
    ensures { result ≤ length text.old }
{
    if text.len() < used {
        return 0;
    }
    used + listing::write_total(n, &mut text[used..]).unwrap_or(0)
}

// The totals of port 0, those of bytes and those of messages by error, and what it holds: each on a line of its own.
pub(crate) fn write_totals(rt: &impl Files, totals: &[u64; 11], held: usize) -> io::Result<()> {
    let mut text = [0u8; 252];
    let mut used = 0;
    for total in totals {
        used = put_total(*total, used, &mut text);
    }
    let all = put_total(held as u64, used, &mut text);
    write_service(rt, prefix(&text, all))
}

// Descriptor 3 as a file.
const SERVICE: &str = "/proc/self/fd/3";

// Writes to descriptor 3, where it is open for writing. It is opened anew, to append to what a file has, and for reading too: a named pipe
// that nobody reads would else keep the program waiting.
fn write_service(rt: &impl Files, text: &[u8]) -> io::Result<()> {
    // by the link's own mode, which is how the descriptor is open
    if fs::symlink_metadata(rt, SERVICE)?.permissions().mode() & 0o200 == 0 {
        return Ok(());
    }
    let mut service = OpenOptions::new()
        .read(true)
        .append(true)
        .open(rt, SERVICE)?;
    service.write_all(text)
}
