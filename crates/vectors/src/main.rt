// Reads a script of test vectors from standard input, runs each line through the library's calls, and prints the line
// with what came of it.
//
// Where all was written, and only then, descriptor 3 is told how many lines were not as they should be. bin/vectors learns from it that the
// script was run to its end, and not from the exit status, which is 0. What went wrong is said on standard error; where that cannot be
// written either, what descriptor 3 is not told says it. But where whoever reads the output has left, nothing is said, and the status is
// 141, as that of other programs, which SIGPIPE ends.
#![tactic(auto)]

mod bench;
mod boards;
mod commands;
mod feeds;
mod listings;
mod messages;
mod output;
mod pages;
mod samples;
mod scans;
mod script;
mod streams;
mod tallies;
mod text;

use output::Output;
use script::Stop;
use std::io::ErrorKind;
use std::process::ExitCode;

// The status where whoever reads the output has left.
const READER_LEFT: u8 = 141;

fn main(rt: HostRuntime) -> ExitCode {
    let mut block = [0u8; 65536];
    let mut out = Output::new(rt);
    match script::run(rt, &mut block, &mut out) {
        Ok(()) => {
            let _ = output::tell(rt, out.faults);
            ExitCode::SUCCESS
        }
        Err(Stop::Unwritten(e)) if e.kind() == ErrorKind::BrokenPipe => ExitCode::from(READER_LEFT),
        Err(why) => {
            let _ = rt.eprint(format_args!("vectors: {why}\n"));
            ExitCode::SUCCESS
        }
    }
}
