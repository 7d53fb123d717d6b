// The controller's side: writing commands and reading replies. The definitions that the contracts cite stand in specs/.
#![tactic(auto)]

mod reader;
mod writer;

pub use reader::{Reply, read_reply};
pub use writer::{append_field, write_command, write_numbered};
