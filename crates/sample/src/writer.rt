// The data writer.
ghost use Rattle.std.specs.Prelude.{◌≡◌};
ghost use Rattle.message.specs.Write.{written_of};
ghost use Rattle.sample.specs.Writer.{data_writing};

use crate::axes::{Axes, put_axes};
use message::write_message;
use refusal::Refusal;

// Writes the data message of an acceleration and a rate to the front of `room`, and tells its length.
pub fn write_data(acceleration: Axes, rate: Axes, room: &mut [u8]) -> Result<usize, Refusal>
    ensures { record { answer = written_of result; room = room.new } ≡ data_writing acceleration rate room.old }
{
    let mut payload = [0u8; 28];
    payload[0] = 0x81;
    payload[1] = 12;
    put_axes(acceleration, &mut payload[2..14]);
    payload[14] = 0x82;
    payload[15] = 12;
    put_axes(rate, &mut payload[16..]);
    write_message(0xA2, &payload, room)
}
