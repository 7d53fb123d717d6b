// The verbs on the totals of a port: tally, totals, count.
use crate::bench::Bench;
use crate::output::Output;
use crate::text::{Fault, Words};
use crate::{streams, text};
use std::io::{self, Write};
use totals::Tally;

pub(crate) fn outcome(
    verb: &[u8],
    args: Words<'_>,
    bench: &mut Bench,
    out: &mut Output,
) -> Result<(), Fault> {
    match verb {
        b"tally" => show(args, bench, out),
        b"totals" => set(args, bench, out),
        b"count" => count(args, bench, out),
        _ => streams::outcome(verb, args, out),
    }
}

// The totals as a row, and back.
pub(crate) fn row_of(t: Tally) -> [u64; 11] {
    let [e0, e1, e2, e3, e4, e5, e6, e7] = t.errors;
    [t.taken, t.skipped, t.good, e0, e1, e2, e3, e4, e5, e6, e7]
}

pub(crate) fn tally_of(row: [u64; 11]) -> Tally {
    let [taken, skipped, good, e0, e1, e2, e3, e4, e5, e6, e7] = row;
    Tally {
        taken,
        skipped,
        good,
        errors: [e0, e1, e2, e3, e4, e5, e6, e7],
    }
}

// `N` numbers of eight bytes each, the highest first.
fn read_numbers<const N: usize>(word: &[u8]) -> Result<[u64; N], Fault> {
    let mut room = [0u8; 88];
    let bytes = text::bytes(word, &mut room)?;
    if bytes.len() / 8 != N || bytes.len() % 8 != 0 {
        return Err(Fault::BadLine);
    }
    let mut numbers = [0u64; N];
    for (number, part) in numbers.iter_mut().zip(bytes.chunks_exact(8)) {
        *number = number_of(part);
    }
    Ok(numbers)
}

fn number_of(part: &[u8]) -> u64 {
    part.first_chunk().map_or(0, |b| u64::from_be_bytes(*b))
}

fn show(args: Words<'_>, bench: &Bench, out: &mut Output) -> Result<(), Fault> {
    let port = text::port(args.last())?;
    Ok(say_tally(bench.tally(port), out)?)
}

// Gives a port totals, whatever it has: 11 numbers of eight bytes.
fn set(mut args: Words<'_>, bench: &mut Bench, out: &mut Output) -> Result<(), Fault> {
    let port = text::port(args.word())?;
    let tally = tally_of(read_numbers(args.last())?);
    bench.set_tally(port, tally);
    Ok(say_tally(tally, out)?)
}

// A driver's record that has the totals of a port, updated from a call: its number and first error, and in eight bytes each what it took
// and skipped and what its port held before and after. The board is left alone.
fn count(mut args: Words<'_>, bench: &Bench, out: &mut Output) -> Result<(), Fault> {
    let port = text::port(args.word())?;
    let number = text::small(args.word())?;
    let error = text::small(args.word())?;
    let [taken, skipped, before, after] = read_numbers::<4>(args.last())?;
    let counted = bench.tally(port).counted(
        number,
        taken as usize,
        skipped as usize,
        error,
        before as usize,
        after as usize,
    );
    Ok(say_tally(counted, out)?)
}

fn say_tally(t: Tally, out: &mut Output) -> io::Result<()> {
    write!(
        out,
        "taken {}, skipped {}, good {}, errors",
        t.taken, t.skipped, t.good
    )?;
    for e in &t.errors {
        write!(out, " {e}")?;
    }
    Ok(())
}
