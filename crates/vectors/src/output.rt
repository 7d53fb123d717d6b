// What the program prints, gathered in a block that is written when it is full.
ghost use Rattle.std.specs.Prelude.{◌≡◌, ◌≤◌};

use listing::LONGEST_TOTAL;
use std::fs::OpenOptions;
use std::os::unix::fs::PermissionsExt;
use std::{fmt, fs, io};

// Descriptor 3 as a file.
const TOLD: &str = "/proc/self/fd/3";

const BLOCK: usize = 512;

#[derive(Drop)]
pub struct Output {
    rt: HostRuntime,
    // Kept: no heap, so what is gathered is an array with its length beside it
    block: [u8; BLOCK],
    used: usize,
    // how many lines were not as they should be
    pub faults: u64,
    ghost inside: { used ≤ 512 },
}

impl Output {
    pub(crate) fn new(rt: HostRuntime) -> Self
        ensures { result.used ≡ 0 }
    {
        Output {
            rt,
            block: [0u8; BLOCK],
            used: 0,
            faults: 0,
        }
    }

    fn write_block(&mut self) -> io::Result<()>
        ensures { self.new.used ≡ 0 }
    {
        let used = self.used;
        self.used = 0;
        let all = &self.block[..];
        self.rt.write_all(&all[..used])
    }

    fn byte(&mut self, b: u8) -> io::Result<()> {
        if self.used >= BLOCK {
            self.write_block()?;
        }
        let at = self.used;
        self.block[at] = b;
        self.used = at + 1;
        Ok(())
    }

    // A line that is not as it should be, or two calls that must agree and do not.
    pub(crate) fn fault(&mut self, what: &str) -> io::Result<()> {
        self.faults = self.faults.saturating_add(1);
        io::Write::write_all(self, what.as_bytes())
    }

    // A line that was to be a fault, where there were `before` of them: it is none, and a line that is known is one.
    pub(crate) fn expect_fault(&mut self, before: u64) -> io::Result<()> {
        if self.faults > before {
            self.faults = before;
            return Ok(());
        }
        self.fault(", which is no bad line")
    }
}

// After a write that failed the script ends: what is written later would stand in the place of what is missing.
impl io::Write for Output {
    fn write(&mut self, bytes: &[u8]) -> io::Result<usize> {
        self.write_all(bytes)?;
        Ok(bytes.len())
    }

    fn write_all(&mut self, bytes: &[u8]) -> io::Result<()> {
        for b in bytes {
            self.byte(*b)?;
        }
        Ok(())
    }

    fn flush(&mut self) -> io::Result<()> {
        self.write_block()
    }
}

// Writes a number, on a line of its own, to descriptor 3, where it is open for writing. It is opened anew, to append to what a file has,
// and for reading too: a named pipe that nobody reads would else keep the program waiting.
pub(crate) fn tell(rt: HostRuntime, n: u64) -> io::Result<()> {
    // by the link's own mode, which is how the descriptor is open
    if fs::symlink_metadata(&rt, TOLD)?.permissions().mode() & 0o200 == 0 {
        return Ok(());
    }
    let mut line = [0u8; LONGEST_TOTAL];
    let length = listing::write_total(n, &mut line).unwrap_or(0);
    let mut told = OpenOptions::new().read(true).append(true).open(&rt, TOLD)?;
    io::Write::write_all(&mut told, prefix(&line, length))
}

// The first `n` bytes, all where there are fewer: in a caller's proof nothing is left to show.
pub(crate) fn prefix(s: &[u8], n: usize) -> &[u8] {
    s.get(..n).unwrap_or(s)
}

// Bytes as a script writes them, runs of five or more as XX*N.
#[derive(Clone, Copy)]
pub struct Bytes<'a>(pub &'a [u8]);

impl fmt::Display for Bytes<'_> {
    fn fmt<W: fmt::Write>(&self, f: &mut fmt::Formatter<W>) -> fmt::Result {
        if self.0.is_empty() {
            return f.write_str("-");
        }
        let mut last = 0;
        for run in self.0.chunk_by(|a, b| a == b) {
            let n = run.len();
            if last >= 5 || last > 0 && n >= 5 {
                f.write_str("+")?;
            }
            write_run(run, f)?;
            last = n;
        }
        Ok(())
    }
}

// A run of one byte.
fn write_run<W: fmt::Write>(run: &[u8], f: &mut fmt::Formatter<W>) -> fmt::Result {
    if let [b, _, _, _, _, ..] = run {
        let n = run.len();
        return write!(f, "{b:02X}*{n}");
    }
    for b in run {
        write!(f, "{b:02X}")?;
    }
    Ok(())
}
