// Why a call is refused: the error of every call that can be (document 01, "Numbers of the calls", 16 to 28). C and the statements see its number.
#![tactic(auto)]

ghost use Rattle.std.specs.Prelude.{◌≡◌};
ghost use Rattle.refusal.specs.Refusal.{refusal_number, number_of};

// In the order of the numbers.
#[derive(Clone, Copy, PartialEq, Eq)]
pub enum Refusal {
    // port not 0 or 1
    Port,
    // board unsound: a port holds too much, or a working value is not allowed
    Board,
    // room too small
    Room,
    // page not 64 bytes
    PageSize,
    // page neither blank nor sound
    Page,
    // not one whole message
    NotWhole,
    // sums wrong
    Sums,
    // a message of another type, or no reply
    Kind,
    // fields do not fill the payload exactly
    Fields,
    // a field 81 or 82 whose size is not 12
    FieldSize,
    // payload over 255 bytes
    Payload,
    // no field or row of that number
    NoField,
    // a command that the board does not accept
    Command,
}

impl From<Refusal> for u8 {
    ghost from_gives = { λ r n. n ≡ refusal_number r };

    fn from(refusal: Refusal) -> u8 {
        match refusal {
            Refusal::Port => 16,
            Refusal::Board => 17,
            Refusal::Room => 18,
            Refusal::PageSize => 19,
            Refusal::Page => 20,
            Refusal::NotWhole => 21,
            Refusal::Sums => 22,
            Refusal::Kind => 23,
            Refusal::Fields => 24,
            Refusal::FieldSize => 25,
            Refusal::Payload => 26,
            Refusal::NoField => 27,
            Refusal::Command => 28,
        }
    }
}

// The number of an answer: 0 where it is done.
pub fn number_of<T: Drop>(answer: Result<T, Refusal>) -> u8
    ensures { result ≡ number_of answer }
{
    match answer {
        Ok(_) => 0,
        Err(refusal) => u8::from(refusal),
    }
}
