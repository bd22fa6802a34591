// accclass CLASS WIRE RECORDS: accread for any front end. Reads a spool from standard input at the class with the wire part, in decimal, into a
// table of so many records, and prints what accread prints. Words that are no such numbers, or more records than the table has, are told on
// standard error, and so is a read or a write that fails; there is then no answer. (A class or wire part that is none is refused with 1, as always.)
#![tactic(auto)]

ghost use Rattle.std.specs.Prelude.{◌≤◌, length, OnOk};
ghost use Rattle.std.specs.Io.KnownBytes.{Appends};
ghost use Rattle.promises.specs.Printing.{listing};

use leaves::numbers::count;
use sets::read;
use shows::failure::tell;
use shows::input::{MOST_READ, read_all};
use shows::listing;
use std::env::FillError;
use std::io;
use std::io::Write;
use std::rt::{Env, Runtime};

// The words: the program's own name, and three numbers.
const WORDS: usize = 4;

// A count has nine digits at most; what is longer is no count.
const LONGEST: usize = 10;

// A table of so many records has so many numbers. No spool has more records: a wire with nothing in it, which a front end without a wire part
// takes, gives two in 13 bytes.
const MOST_RECORDS: u64 = 10240;

const MOST_NUMBERS: usize = 327680;

const WIDTH: u64 = 32;

// Whether there is such a word, by its place.
fn is_given<R: Env>(rt: &R, word: usize) -> bool {
    let mut nothing = [0u8; 0];
    !matches!(rt.arg(word, &mut nothing), Err(FillError::NotPresent))
}

fn number<R: Env>(rt: &R, word: usize) -> Option<u64> {
    let mut digits = [0u8; LONGEST];
    match rt.arg(word, &mut digits) {
        Ok(n) => count(&digits[..n]),
        Err(_) => None,
    }
}

// Reads the spool into the table's front, so many numbers, and prints what `ListingPrints` says (promises, Printing).
fn answer<W: Write>(
    out: &mut W,
    spool: &[u8],
    cls: u64,
    wire: u64,
    numbers: usize,
    table: &mut [i64],
) -> io::Result<()>
    ensures { OnOk result ((numbers ≤ length table.old)
        × Appends (W.contents out.old) (W.contents out.new) (listing cls wire numbers spool.now)) }
{
    if table.len() < numbers {
        return Err(io::Error::from(io::ErrorKind::InvalidInput));
    }
    let lent = &mut table[..numbers];
    let answer = read(spool, cls, wire, lent);
    listing(out, answer, lent)
}

fn read_and_answer(rt: HostRuntime, cls: u64, wire: u64, numbers: usize) {
    let mut spool = [0u8; MOST_READ];
    let input = read_all(&mut rt.stdin(), &mut spool);
    if let Some(e) = input.failed {
        tell(&rt, "accclass: standard input", e);
        return;
    }
    let n = input.bytes;
    let mut table = [0i64; MOST_NUMBERS];
    if let Err(e) = answer(
        &mut rt.stdout(),
        &spool[..n],
        cls,
        wire,
        numbers,
        &mut table,
    ) {
        tell(&rt, "accclass: standard output", e);
    }
}

fn usage<R: Eprint>(rt: &R) {
    let _ = rt.eprintln(
        "accclass: usage: accclass CLASS WIRE RECORDS < spool, with at most 10240 records",
    );
}

fn main(rt: HostRuntime) {
    if !is_given(&rt, WORDS - 1) || is_given(&rt, WORDS) {
        usage(&rt);
        return;
    }
    let Some(cls) = number(&rt, 1) else {
        usage(&rt);
        return;
    };
    let Some(wire) = number(&rt, 2) else {
        usage(&rt);
        return;
    };
    let Some(records) = number(&rt, 3) else {
        usage(&rt);
        return;
    };
    if MOST_RECORDS < records {
        usage(&rt);
        return;
    }
    read_and_answer(rt, cls, wire, (WIDTH * records) as usize);
}
