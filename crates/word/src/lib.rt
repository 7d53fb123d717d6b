// Big-endian numbers (document 01, "A message": numbers are big-endian).
#![tactic(auto)]

ghost use Rattle.std.specs.Prelude.{◌≡◌, take};
ghost use Rattle.word.specs.Word.{number, word};

// The number of four bytes, the highest first.
pub fn word_of(b3: u8, b2: u8, b1: u8, b0: u8) -> u32
    ensures { result ≡ word b3 b2 b1 b0 }
{
    u32::from_be_bytes([b3, b2, b1, b0])
}

// The number of the bytes of `b`, or of the first four where there are more.
pub fn number_of(b: &[u8]) -> u32
    ensures { result ≡ number (take 4 b.now) }
{
    match *b {
        [] => 0,
        [b0] => word_of(0, 0, 0, b0),
        [b1, b0] => word_of(0, 0, b1, b0),
        [b2, b1, b0] => word_of(0, b2, b1, b0),
        [b3, b2, b1, b0, ..] => word_of(b3, b2, b1, b0),
    }
}
