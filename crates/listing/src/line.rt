// A line in the making: text, codes and numbers, one behind the other.
ghost use Rattle.std.specs.Prelude.{◌+◌, ◌≤◌, ◌<◌, ◌≡◌, List, ℕ, [], ◌++◌, ◌%◌, length, take, drop};
ghost use Rattle.listing.specs.Text.{blank, hex_digit, hex_of, decimal_of};

use std::marker::Model;

// At most N bytes, of which the first `used` are the text.
#[derive(Drop)]
pub(crate) struct Line<const N: usize> {
    bytes: [u8; N],
    used: usize,
}

impl<const N: usize> Model for Line<N> {
    ghost Value = { List ℕ };

    ghost view = { λ l. take l.used l.bytes };

    ghost invariant = { λ l. l.used ≤ N };
}

impl<const N: usize> Line<N> {
    pub(crate) fn new() -> Self
        ensures { result ≡ [] }
    {
        Line {
            bytes: [0; N],
            used: 0,
        }
    }

    pub(crate) fn text(&mut self, text: &[u8])
        requires { length self.old + length text.now ≤ N }
        ensures { self.new ≡ self.old ++ text.now }
    {
        let start = self.used;
        let end = start + text.len();
        let all = &mut self.bytes[..];
        all[start..end].copy_from_slice(text);
        self.used = end;
    }

    // A byte's two digits and a blank.
    pub(crate) fn code(&mut self, b: u8)
        requires { length self.old + 3 ≤ N }
        ensures { self.new ≡ self.old ++ hex_of b ++ blank }
    {
        self.text(&[hex_digit(b / 16), hex_digit(b % 16), b' ']);
    }

    pub(crate) fn decimal(&mut self, n: u64)
        requires { length self.old + length (decimal_of n) ≤ N }
        ensures { self.new ≡ self.old ++ decimal_of n }
    {
        let mut digits = [0; 20];
        let start = spell(n, &mut digits);
        self.text(&digits[start..]);
    }

    pub(crate) fn bytes(&self) -> &[u8]
        ensures { result.now ≡ self.now }
    {
        let all = &self.bytes[..];
        &all[..self.used]
    }
}

fn hex_digit(d: u8) -> u8
    requires { d < 16 }
    ensures { result ≡ hex_digit d }
{
    if d < 10 { b'0' + d } else { b'A' - 10 + d }
}

fn last_digit(n: u64) -> u8
    ensures { result ≡ 48 + n % 10 }
{
    b'0' + (n % 10) as u8
}

// Writes the digits of a number to the end of `digits`, from the last to the first, and tells where they start.
// Kept: fmt says what it wrote only of an answer Ok, and the clauses of the writers (`line_of`) hold of every answer.
fn spell(n: u64, digits: &mut [u8; 20]) -> usize
    ensures start { result ≤ 20 }
    ensures value { drop result digits.new ≡ decimal_of n }
{
    let mut start = 19;
    digits[start] = last_digit(n);
    let mut rest = n;
    while rest >= 10 {
        rest /= 10;
        start -= 1;
        digits[start] = last_digit(rest);
    }
    start
}
