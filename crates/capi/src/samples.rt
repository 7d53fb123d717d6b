// Data messages: a field read, its data bytes copied, and the writer. An axis goes in and out as its 32 bits.
ghost use Rattle.std.specs.Prelude.{◌≡◌};
ghost use Rattle.sample.specs.Axes.{axes_from};
ghost use Rattle.message.specs.Write.{written_of};
ghost use Rattle.sample.specs.Reader.{answer_of, field_read, field_data};
ghost use Rattle.sample.specs.Writer.{data_writing};
ghost use Rattle.capi.specs.Flat.{flat_axes, flat_field, copying_on};

use crate::flat::FlatField;
use message::{Written, write_bytes};
use refusal::Refusal;
use sample::{Axes, FieldRead, Sample, axes_from_bits, bits_of};

// An acceleration's or a rate's axes.
fn flat_axes(code: u8, place: usize, size: usize, a: Axes) -> FlatField
    ensures { result ≡ flat_axes 0 code place size a }
{
    FlatField {
        number: 0,
        code,
        place,
        size,
        x: bits_of(a.x, a.x_nan),
        y: bits_of(a.y, a.y_nan),
        z: bits_of(a.z, a.z_nan),
    }
}

impl From<Result<FieldRead, Refusal>> for FlatField {
    ghost from_gives = { λ r f. f ≡ flat_field (answer_of r) };

    fn from(answer: Result<FieldRead, Refusal>) -> FlatField {
        match answer {
            Ok(read) => match read.field {
                Sample::Acceleration(a) => flat_axes(0x81, read.place, read.size, a),
                Sample::Rate(a) => flat_axes(0x82, read.place, read.size, a),
                Sample::Unknown(code, _) => FlatField {
                    code,
                    place: read.place,
                    size: read.size,
                    ..FlatField::default()
                },
            },
            Err(refusal) => FlatField {
                number: u8::from(refusal),
                ..FlatField::default()
            },
        }
    }
}

// Field k, counted from 0, of a message: number 0; the `size` bytes from `place` on are its data. 21: not one whole message; 22: wrong
// sums; 23: not a data message; 24: the fields do not fill the payload; 25: a field 81 or 82 is not 12 bytes; 27: no such field. All
// else is 0 then.
#[unsafe(no_mangle)]
pub extern "C" fn ketphiroj_read_field(message: &[u8], k: usize) -> FlatField
    ensures { result ≡ flat_field (field_read message.now k) }
{
    FlatField::from(sample::read_field(message, k))
}

// Copies the data bytes of field k to the front of `room`: number 0 and their length. The numbers of reading the field, then
// 18: the room is too short. Nothing is written then.
#[unsafe(no_mangle)]
pub extern "C" fn ketphiroj_copy_field(message: &[u8], k: usize, room: &mut [u8]) -> Written
    ensures { record { answer = result; room = room.new } ≡ copying_on (field_read message.now k).number (field_data message.now k) room.old }
{
    Written::from(copy_field(message, k, room))
}

fn copy_field(message: &[u8], k: usize, room: &mut [u8]) -> Result<usize, Refusal>
    ensures { record { answer = written_of result; room = room.new } ≡ copying_on (field_read message.now k).number (field_data message.now k) room.old }
{
    sample::read_field(message, k)?;
    write_bytes(sample::field_data(message, k), room)
}

// Writes the data message of an acceleration and a rate, as the patterns of their axes, to the front of `room`: number 0 and
// 34. 18: the room is too short; nothing is written then.
#[unsafe(no_mangle)]
pub extern "C" fn ketphiroj_write_data(
    ax: u32,
    ay: u32,
    az: u32,
    rx: u32,
    ry: u32,
    rz: u32,
    room: &mut [u8],
) -> Written
    ensures { record { answer = result; room = room.new } ≡ data_writing (axes_from ax ay az) (axes_from rx ry rz) room.old }
{
    let acceleration = axes_from_bits(ax, ay, az);
    let rate = axes_from_bits(rx, ry, rz);
    Written::from(sample::write_data(acceleration, rate, room))
}
