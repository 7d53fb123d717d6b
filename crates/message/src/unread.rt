// The bytes that are unread: those held and then a chunk, as one row of bytes that are never copied together.
ghost use Rattle.std.specs.Prelude.{◌≡◌, ◌+◌, ◌≤◌, ◌++◌, length, take, drop, slice_index};
ghost use Rattle.message.specs.Unread.{bytes_of};

#[derive(Clone, Copy)]
pub struct Unread<'a> {
    pub held: &'a [u8],
    pub chunk: &'a [u8],
}

// Bytes in one slice are held bytes with an empty chunk.
impl<'a> From<&'a [u8]> for Unread<'a> {
    ghost from_gives = { λ s u. bytes_of u ≡ s.now };

    fn from(s: &'a [u8]) -> Unread<'a> {
        Unread {
            held: s,
            chunk: &s[0..0],
        }
    }
}

impl<'a> Unread<'a> {
    // The first `n` of `bytes`, all of them where there are fewer, and then `chunk`.
    pub fn new(bytes: &'a [u8], n: usize, chunk: &'a [u8]) -> Unread<'a>
        ensures { bytes_of result ≡ take n bytes.now ++ chunk.now }
    {
        Unread {
            held: first_of(bytes, n),
            chunk,
        }
    }

    // How many they are.
    pub fn len(self) -> usize
        ensures { result ≡ length self.entry.held.now + length self.entry.chunk.now }
    {
        self.held.len() + self.chunk.len()
    }

    // Byte `i`, 0 where there is none.
    pub fn byte(self, i: usize) -> u8
        ensures { result ≡ slice_index (bytes_of self.entry) i }
    {
        let h = self.held.len();
        if i < h {
            return self.held[i];
        }
        let chunk = self.chunk;
        let j = i - h;
        if j < chunk.len() { chunk[j] } else { 0 }
    }

    // What is left behind the first `k`, none where there are no more.
    pub fn after(self, k: usize) -> Unread<'a>
        ensures { bytes_of result ≡ drop k (bytes_of self.entry) }
    {
        let h = self.held.len();
        if k <= h {
            return Unread {
                held: &self.held[k..],
                chunk: self.chunk,
            };
        }
        let chunk = self.chunk;
        let past = std::cmp::min(k - h, chunk.len());
        Unread {
            held: &chunk[0..0],
            chunk: &chunk[past..],
        }
    }
}

// The first `n` of `bytes`, all of them where there are fewer.
fn first_of(bytes: &[u8], n: usize) -> &[u8]
    ensures { result.now ≡ take n bytes.now }
{
    if bytes.len() < n {
        return bytes;
    }
    &bytes[0..n]
}
