// The writers: the heading, a line, the counts, a total.
ghost use Rattle.std.specs.Prelude.{◌≡◌};
ghost use Rattle.message.specs.Write.{writing_of, written_of};
ghost use Rattle.listing.specs.Text.{heading, line_of, counts_of, total_of};

use crate::line::Line;
use message::write_bytes;
use refusal::Refusal;

// The longest line of a row: two codes of two digits, an error of three, `saved`, and what stands between them.
pub const LONGEST_LINE: usize = 16;

// The longest line of counts: three numbers of 20 digits, their names, and what stands between them.
pub const LONGEST_COUNTS: usize = 82;

// The longest line of a total: a number of 20 digits.
pub const LONGEST_TOTAL: usize = 21;

pub fn write_heading(room: &mut [u8]) -> Result<usize, Refusal>
    ensures { record { answer = written_of result; room = room.new } ≡ writing_of heading room.old }
{
    write_bytes(b"type code error page\n", room)
}

// The line of a row: the reply's type, and the row's echo and error.
pub fn write_line(
    kind: u8,
    echo: u8,
    error: u8,
    saved: bool,
    room: &mut [u8],
) -> Result<usize, Refusal>
    ensures { record { answer = written_of result; room = room.new } ≡ writing_of (line_of kind echo error saved) room.old }
{
    let mut line = Line::<LONGEST_LINE>::new();
    line.code(kind);
    line.code(echo);
    line.decimal(u64::from(error));
    if saved {
        line.text(b" saved\n");
    } else {
        line.text(b" same\n");
    }
    write_bytes(line.bytes(), room)
}

// The last line: what was taken and skipped in all, and what is held at the end.
pub fn write_counts(
    taken: u64,
    skipped: u64,
    held: usize,
    room: &mut [u8],
) -> Result<usize, Refusal>
    ensures { record { answer = written_of result; room = room.new } ≡ writing_of (counts_of taken skipped held) room.old }
{
    let mut line = Line::<LONGEST_COUNTS>::new();
    line.text(b"taken ");
    line.decimal(taken);
    line.text(b" skipped ");
    line.decimal(skipped);
    line.text(b" held ");
    line.decimal(held as u64);
    line.text(b"\n");
    write_bytes(line.bytes(), room)
}

// A total of a port, on a line of its own.
pub fn write_total(n: u64, room: &mut [u8]) -> Result<usize, Refusal>
    ensures { record { answer = written_of result; room = room.new } ≡ writing_of (total_of n) room.old }
{
    let mut line = Line::<LONGEST_TOTAL>::new();
    line.decimal(n);
    line.text(b"\n");
    write_bytes(line.bytes(), room)
}
