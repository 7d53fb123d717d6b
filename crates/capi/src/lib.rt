// The library's calls for C and Rust: each under its plain name, on numbers, slices (pointer, then length) and structs of
// fixed layout by value; a driver's tally record alone is lent by a pointer. No call trusts an argument: what is not in order is answered
// by a number of document 01, and the record takes any. What a
// caller must see to stands at the top of include/ketphiroj.h: pointers that hold, and slices that do not overlap where one of
// them is written.
#![tactic(auto)]

mod counting;
mod feeding;
mod flat;
mod messages;
mod pages;
mod samples;
mod version;

pub use counting::ketphiroj_count;
pub use feeding::{ketphiroj_call_in_place, ketphiroj_start, ketphiroj_start_in_place};
pub use flat::{FlatField, FlatPage, FlatReply, FlatValues};
pub use messages::{
    ketphiroj_append_field, ketphiroj_check_message, ketphiroj_read_reply, ketphiroj_write_command,
    ketphiroj_write_message, ketphiroj_write_numbered,
};
pub use pages::{
    ketphiroj_check_page, ketphiroj_copy_body, ketphiroj_factory_page, ketphiroj_read_page,
    ketphiroj_write_page,
};
pub use samples::{ketphiroj_copy_field, ketphiroj_read_field, ketphiroj_write_data};
pub use version::ketphiroj_version;
