// Bytes as they are, written to a room.
ghost use Rattle.std.specs.Prelude.{◌≡◌, ◌++◌, length, take, drop};
ghost use Rattle.message.specs.Write.{writing_of, written_of};

use refusal::Refusal;

// Copies bytes over those at the front of `room`, as many as both have.
// Kept: (a) a loop by hand. With `copy_from_slice` the archive calls `memmove` too, and README and include/ketphiroj.h promise a C firmware
// that it calls `memcpy` and `memset`, and nothing else.
pub fn copy_front(bytes: &[u8], room: &mut [u8])
    ensures { room.new ≡ take (length room.old) bytes.now ++ drop (length bytes.now) room.old }
{
    let n = bytes.len().min(room.len());
    for i in 0..n {
        room[i] = bytes[i];
    }
}

// Writes bytes to the front of `room`, where it has room for all of them, and tells how many.
pub fn write_bytes(bytes: &[u8], room: &mut [u8]) -> Result<usize, Refusal>
    ensures { record { answer = written_of result; room = room.new } ≡ writing_of bytes.now room.old }
{
    let n = bytes.len();
    if room.len() < n {
        return Err(Refusal::Room);
    }
    copy_front(bytes, room);
    Ok(n)
}
