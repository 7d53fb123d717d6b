// The header of a message: what the first bytes tell, before any byte is summed.
ghost use Rattle.std.specs.Prelude.{◌≡◌, ◌+◌, ◌%◌};
ghost use Rattle.message.specs.Unread.{bytes_of};
ghost use Rattle.message.specs.Header.{opening_of};

use crate::unread::Unread;

// What the first bytes of what is unread tell of a message there.
#[derive(Clone, Copy)]
pub(crate) enum Opening {
    // None opens there.
    NoMessage,
    // One may open there, and not all of it is there.
    Incomplete,
    // One opens there, of so many bytes, and all of it is there.
    Complete(usize),
}

// L + 6, the size of a message with the length byte `l`.
pub(crate) fn size_from(l: u8) -> usize
    ensures { result ≡ l % 256 + 6 }
{
    l as usize + 6
}

impl<'a> Unread<'a> {
    // What its first bytes tell.
    pub(crate) fn opening(self) -> Opening
        ensures { result ≡ opening_of (bytes_of self.entry) }
    {
        let left = self.len();
        if left == 0 {
            return Opening::Incomplete;
        }
        if self.byte(0) != 0xA5 {
            return Opening::NoMessage;
        }
        if left < 2 {
            return Opening::Incomplete;
        }
        if self.byte(1) != 0xA5 {
            return Opening::NoMessage;
        }
        // 0 where there is no third byte
        if self.byte(2) == 0xA5 {
            return Opening::NoMessage;
        }
        let n = size_from(self.byte(3));
        if left < n {
            Opening::Incomplete
        } else {
            Opening::Complete(n)
        }
    }
}
