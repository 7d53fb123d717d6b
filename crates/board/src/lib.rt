// The board: two ports that hold unread bytes, with their totals, the working settings, the profile, starting, feeding and silences.
// The definitions that the contracts cite stand in specs/.
#![tactic(auto)]

mod board;
mod calls;
mod counting;
mod feeding;
mod keep;
mod port;
mod profile;
mod starting;

pub use board::{Board, Fed, Started};
pub use calls::{call_in_place, feed, feed_in_place, silence, silence_in_place};
pub use feeding::Stepped;
pub use port::Port;
pub use starting::{StartedInPlace, start, start_in_place};
