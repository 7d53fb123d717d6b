// The board, and what starting and feeding answer.
use crate::port::Port;
use command::Settings;
use totals::Tally;

#[repr(C)]
#[derive(Clone, Copy)]
pub struct Board {
    // Kept: two ports and two totals in fields of their own, the C interface (`ketphiroj_board` in include/ketphiroj.h)
    // port 0
    pub first: Port,
    // port 1
    pub second: Port,
    // the working values
    pub settings: Settings,
    // the profile that it was started in: whether port 1 is read-only
    pub readonly: bool,
    // the totals of port 0 and of port 1 since the start
    pub tally0: Tally,
    pub tally1: Tally,
}

impl Board {
    // the profiles
    pub const FULL: bool = false;

    pub const READONLY: bool = true;
}

// What starting answers.
#[repr(C)]
#[derive(Clone, Copy)]
pub struct Started {
    // document 01's number
    // Kept: a number in the answer, the C interface
    pub number: u8,
    pub board: Board,
}

// What a feed answers.
#[derive(Clone, Copy)]
pub struct Fed {
    // document 01's number
    // Kept: a Result would hold the board in its error too, and 1 is no refusal
    pub number: u8,
    // bytes taken from the chunk, and bytes that the scan skipped
    pub taken: usize,
    pub skipped: usize,
    // the first error in the reply, 0 where there is none
    pub error: u8,
    // the mark of a save: one was accepted, or a fresh number
    pub saved: bool,
    pub board: Board,
}
