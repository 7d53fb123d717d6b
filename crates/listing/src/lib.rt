// The text of a listing: the heading, a line for each row of a reply, the counts, and the totals. The definitions that the contracts cite stand
// in specs/.
#![tactic(auto)]

mod line;
mod rows;
mod writers;

pub use rows::row_size;
pub use writers::{
    LONGEST_COUNTS, LONGEST_LINE, LONGEST_TOTAL, write_counts, write_heading, write_line,
    write_total,
};
