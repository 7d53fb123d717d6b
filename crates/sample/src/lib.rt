// The data message 0xA2: three axes of an acceleration and of a rate, read, handed out in part, and written. The definitions
// that the contracts cite stand in specs/.
#![tactic(auto)]

mod axes;
mod reader;
mod writer;

pub use axes::{Axes, axes_from_bits, bits_of};
pub use reader::{FieldRead, Sample, field_data, read_field};
pub use writer::write_data;
