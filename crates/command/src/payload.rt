// A payload: that of a message, or of the command in it.
ghost use Rattle.std.specs.Prelude.{◌≡◌, length, get_or};
ghost use Rattle.command.specs.Payload.{bytes_in, Stands};

use message::Unread;

// The bytes from `from` up to `to` of what is unread.
#[derive(Clone, Copy)]
pub struct Payload<'a> {
    pub unread: Unread<'a>,
    pub from: usize,
    pub to: usize,
}

impl<'a> Payload<'a> {
    // How many bytes it has.
    pub(crate) fn len(self) -> usize
        requires { Stands self }
        ensures { result ≡ length (bytes_in self.entry) }
    {
        self.to - self.from
    }

    // Byte `i`, 0 where there is none.
    pub(crate) fn byte(self, i: usize) -> u8
        ensures { result ≡ get_or (bytes_in self.entry) i 0 }
    {
        if self.to <= self.from {
            return 0;
        }
        if i < self.to - self.from {
            self.unread.byte(self.from + i)
        } else {
            0
        }
    }
}
