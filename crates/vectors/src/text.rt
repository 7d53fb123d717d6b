// Lines, words, numbers and bytes as a script writes them.
use std::io;

// The most bytes that one word of a script may stand for.
pub const MOST: usize = 1024;

// Why a line is not run to its end.
#[derive(Drop)]
pub enum Fault {
    BadLine,
    UnknownLine,
    Unwritten(io::Error),
}

impl From<io::Error> for Fault {
    fn from(e: io::Error) -> Fault {
        Fault::Unwritten(e)
    }
}

// What is still to be read of a line.
#[derive(Clone, Copy)]
pub struct Words<'a>(pub &'a [u8]);

impl<'a> Words<'a> {
    // The first word; what follows its blank is left.
    pub(crate) fn word(&mut self) -> &'a [u8] {
        let all = self.0;
        let end = all.iter().position(|b| *b == b' ').unwrap_or(all.len());
        self.0 = all.get(end + 1..).unwrap_or(&[]);
        &all[..end]
    }

    // All that is left, which has to be one word: no number, and no bytes, have a blank.
    pub(crate) fn last(self) -> &'a [u8] {
        self.0
    }
}

// A decimal number of at most ten digits, but for zeros in front.
pub(crate) fn decimal(word: &[u8]) -> Result<usize, Fault> {
    digits(word).ok_or(Fault::BadLine)
}

// A decimal number of one byte.
pub(crate) fn small(word: &[u8]) -> Result<u8, Fault> {
    u8::try_from(decimal(word)?).map_err(|_| Fault::BadLine)
}

// A decimal number of four bytes.
pub(crate) fn wide(word: &[u8]) -> Result<u32, Fault> {
    u32::try_from(decimal(word)?).map_err(|_| Fault::BadLine)
}

// One of the two ports.
pub(crate) fn port(word: &[u8]) -> Result<u8, Fault> {
    match small(word)? {
        number @ 0..=1 => Ok(number),
        _ => Err(Fault::BadLine),
    }
}

// A word of two hex digits.
pub(crate) fn octet(word: &[u8]) -> Result<u8, Fault> {
    pair(word).ok_or(Fault::BadLine)
}

// The bytes that the word writes, which are put to the front of `room`.
pub(crate) fn bytes<'a>(word: &[u8], room: &'a mut [u8]) -> Result<&'a [u8], Fault> {
    let n = put_bytes(word, room).ok_or(Fault::BadLine)?;
    room.get(..n).ok_or(Fault::BadLine)
}

// The front of an array, which a call is given as if it ended there.
pub(crate) fn front(array: &mut [u8], n: usize) -> Result<&mut [u8], Fault> {
    array.get_mut(..n).ok_or(Fault::BadLine)
}

fn digits(s: &[u8]) -> Option<usize> {
    if s.is_empty() {
        return None;
    }
    let mut value = 0;
    for b in s {
        value = with_digit(value, *b)?;
    }
    Some(value)
}

fn with_digit(value: usize, b: u8) -> Option<usize> {
    if value > 999_999_999 {
        return None;
    }
    let d = (b as char).to_digit(10)?;
    Some(10 * value + d as usize)
}

fn pair(s: &[u8]) -> Option<u8> {
    let [high, low] = s else {
        return None;
    };
    octet_of(*high, *low)
}

fn octet_of(high: u8, low: u8) -> Option<u8> {
    let h = (high as char).to_digit(16)?;
    let l = (low as char).to_digit(16)?;
    Some((16 * h + l) as u8)
}

// Pieces with a `+` between them; a `-` alone for no bytes. It answers how many bytes there are.
fn put_bytes(s: &[u8], room: &mut [u8]) -> Option<usize> {
    if let b"-" = s {
        return Some(0);
    }
    let mut n = 0usize;
    for piece in s.split(|b| *b == b'+') {
        n = n.checked_add(put_piece(piece, room.get_mut(n..)?)?)?;
    }
    Some(n)
}

// Hex digits, or those of one byte, a `*` and how often it stands there.
fn put_piece(s: &[u8], room: &mut [u8]) -> Option<usize> {
    match s {
        [] | [_] => None,
        [high, low, b'*', count @ ..] => {
            let n = digits(count)?;
            room.get_mut(..n)?.fill(octet_of(*high, *low)?);
            Some(n)
        }
        _ => put_digits(s, room),
    }
}

fn put_digits(s: &[u8], room: &mut [u8]) -> Option<usize> {
    if s.len() % 2 != 0 {
        return None;
    }
    let n = s.len() / 2;
    for (b, two) in room.get_mut(..n)?.iter_mut().zip(s.chunks_exact(2)) {
        *b = pair(two)?;
    }
    Some(n)
}
