// An MS CIP message: its sums, what stands at the front of unread bytes, the seek for the next message, the test of one
// whole message, the plain writer, and the writer of plain bytes. The definitions that the contracts cite stand in specs/.
#![tactic(auto)]

mod bytes;
mod fletcher;
mod front;
mod header;
mod skips;
mod unread;
mod whole;
mod window;
mod write;

pub use bytes::{copy_front, write_bytes};
pub use fletcher::Sums;
pub use front::{front_at, seek};
pub use unread::Unread;
pub use whole::check_message;
pub use window::seek_held;
pub use write::{Written, seal_message, write_message};
