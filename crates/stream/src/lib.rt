// The answers of a scan, shared by the theory in specs/ and by the code of every framing.
#![tactic(auto)]

// What stands at the front of the unread bytes.
#[derive(Clone, Copy, PartialEq, Eq)]
pub enum Verdict {
    // One byte is skipped.
    Skip,
    // More bytes are needed to tell; document 01's "undecided".
    Undecided,
    // A message: its length, and whether its sums are right (good) or wrong (damaged).
    Whole(usize, bool),
}

// Where a seek through the unread bytes ends.
#[derive(Clone, Copy, PartialEq, Eq)]
pub enum Sought {
    // No message: so many bytes are skipped, and what follows them is undecided or nothing.
    Starved(usize),
    // A message: the bytes skipped before it, its length, and whether it is good.
    Found(usize, usize, bool),
}
