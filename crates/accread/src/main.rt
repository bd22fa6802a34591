// Reads a spool from standard input at class 15 with wire part 18 into a table of 256 records, and prints one line `answer volume line
// records`, then, if accepted, one line of 32 numbers for each record. A read or a write that fails is told on standard error; a failed read
// has no answer.
#![tactic(auto)]

ghost use Rattle.std.specs.Prelude.{OnOk};
ghost use Rattle.std.specs.Io.KnownBytes.{Appends};
ghost use Rattle.rules.specs.Answers.{printed};

use sets::read;
use shows::failure::tell;
use shows::input::{MOST_READ, read_all};
use shows::listing;
use std::io;
use std::io::Write;

// The class and the wire part that skip nothing.
const FULL_CLASS: u64 = 15;

const FULL_WIRE: u64 = 18;

// Reads the spool and prints it: promises, Printing, `ProgramPrints`.
fn answer<W: Write>(to: &mut W, spool: &[u8]) -> io::Result<()>
    ensures { OnOk result (Appends (W.contents to.old) (W.contents to.new) (printed spool.now)) }
{
    let mut table = [0i64; 8192];
    let answer = read(spool, FULL_CLASS, FULL_WIRE, &mut table);
    listing(to, answer, &table)
}

fn main(rt: HostRuntime) {
    let mut spool = [0u8; MOST_READ];
    let input = read_all(&mut rt.stdin(), &mut spool);
    if let Some(e) = input.failed {
        tell(&rt, "accread: standard input", e);
        return;
    }
    let n = input.bytes;
    if let Err(e) = answer(&mut rt.stdout(), &spool[..n]) {
        tell(&rt, "accread: standard output", e);
    }
}
