// Three axes carried bit for bit.
ghost use Rattle.std.specs.Prelude.{◌≡◌, length};
ghost use Rattle.std.specs.Float.{binary32};
ghost use Rattle.std.specs.Float.Ieee.{nan_bits};
ghost use Rattle.sample.specs.Axes.{float_of, kept_of, bits_of, axes_from, axes_of, axes_bytes};

use word::number_of;

// Three IEEE 754 single floats. The kit's f32 has a single NaN, so the pattern of an axis that is a NaN stands beside it;
// beside any other it is 0.
// Kept: document 01 and specs/Axes.antt name these fields, a struct of three floats.
#[derive(Clone, Copy)]
pub struct Axes {
    pub x: f32,
    pub y: f32,
    pub z: f32,
    pub x_nan: u32,
    pub y_nan: u32,
    pub z_nan: u32,
}

// Whether a pattern is a NaN's: its sign aside, above that of infinity.
#[tactic(auto, using(crate::proofs::Patterns::nan_test))]
fn is_nan(bits: u32) -> bool
    ensures { result ≡ nan_bits binary32 bits }
{
    bits % 0x8000_0000 > 0x7f80_0000
}

// The float of a pattern. The kit makes no float of a NaN's pattern: a NaN is made anew.
#[tactic(auto, using(crate::proofs::Patterns::float_nan))]
fn float_of(bits: u32) -> f32
    ensures { result ≡ float_of bits }
{
    if is_nan(bits) {
        f32::NAN
    } else {
        f32::from_bits(bits)
    }
}

// What stands beside the float of a pattern.
#[tactic(auto, unfolding(crate::specs::Axes::kept_of))]
fn kept_of(bits: u32) -> u32
    ensures { result ≡ kept_of bits }
{
    if is_nan(bits) { bits } else { 0 }
}

// The pattern of a float and of what stands beside it. Beside a NaN a caller may have put what is no NaN's pattern: it stays
// a NaN all the same.
#[tactic(auto, unfolding(crate::specs::Axes::bits_of))]
pub fn bits_of(x: f32, kept: u32) -> u32
    ensures { result ≡ bits_of x kept }
{
    if x.is_nan() {
        if is_nan(kept) { kept } else { 0x7fc0_0000 }
    } else {
        f32::to_bits(x)
    }
}

// The axes of three patterns.
pub fn axes_from_bits(x: u32, y: u32, z: u32) -> Axes
    ensures { result ≡ axes_from x y z }
{
    Axes {
        x: float_of(x),
        y: float_of(y),
        z: float_of(z),
        x_nan: kept_of(x),
        y_nan: kept_of(y),
        z_nan: kept_of(z),
    }
}

// The axes of twelve bytes.
#[tactic(auto, using(crate::proofs::AxesBytes::axes_read), unfolding(crate::specs::Axes::axes_of))]
pub(crate) fn axes_of(b: &[u8]) -> Axes
    requires { length b.now ≡ 12 }
    ensures { result ≡ axes_of b.now }
{
    let x = number_of(b);
    let y = number_of(&b[4..]);
    let z = number_of(&b[8..]);
    axes_from_bits(x, y, z)
}

// Writes the axes as twelve bytes, of each the highest first.
#[tactic(auto, unfolding(crate::specs::Axes::axes_bytes))]
pub(crate) fn put_axes(a: Axes, room: &mut [u8])
    requires { length room.old ≡ 12 }
    ensures { room.new ≡ axes_bytes a }
{
    room[..4].copy_from_slice(&bits_of(a.x, a.x_nan).to_be_bytes());
    room[4..8].copy_from_slice(&bits_of(a.y, a.y_nan).to_be_bytes());
    room[8..].copy_from_slice(&bits_of(a.z, a.z_nan).to_be_bytes());
}
