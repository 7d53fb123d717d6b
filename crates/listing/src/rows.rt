// The rows of a reply, of which each has a line.
ghost use Rattle.std.specs.Prelude.{◌≤◌, ◌<◌, ◌≡◌};
ghost use Rattle.listing.specs.Rows.{row_size};

// The size of the row at the front of these bytes of a reply's payload: a field 80 of 4 bytes, and the field behind it where that
// is no row, but the value of this one.
#[tactic(auto, unfolding(crate::specs::Rows::row_size))]
pub fn row_size(rows: &[u8]) -> usize
    ensures value { result ≡ row_size rows.now }
    ensures lower_bound { (4 ≤ result) × (result < 262) }
{
    match rows {
        [_, _, _, _, code, size, ..] if *code != 0x80 => 6 + usize::from(*size),
        _ => 4,
    }
}
