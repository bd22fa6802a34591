// A filter: a spool on standard input, its fixed form on standard output where it is accepted, nothing there where it is refused; then one
// line `answer volume line bytes` on standard error. A read or a write that fails is told there instead of that line.
#![tactic(auto)]

ghost use Rattle.std.specs.Prelude.{take, OnOk};
ghost use Rattle.std.specs.Io.KnownBytes.{Appends};
ghost use Rattle.rules.specs.Answers.{answer_count};

use rules::Refusal;
use sets::rewrite;
use shows::failure::tell;
use shows::input::{MOST_READ, read_all};
use shows::{answer_line, write_front};
use std::io;
use std::io::Write;

// The fixed form is never longer than its spool.
const MOST_WRITTEN: usize = 61440;

// Writes the fixed form, if there is one.
fn write<W: Write>(to: &mut W, answer: Result<u32, Refusal>, out: &[u8]) -> io::Result<()>
    ensures { OnOk result (Appends (W.contents to.old) (W.contents to.new) (take (answer_count answer) out.now)) }
{
    match answer {
        Ok(count) => write_front(to, out, count as usize),
        Err(_f) => Ok(()),
    }
}

fn main(rt: HostRuntime) {
    let mut spool = [0u8; MOST_READ];
    let input = read_all(&mut rt.stdin(), &mut spool);
    if let Some(e) = input.failed {
        tell(&rt, "accfix: standard input", e);
        return;
    }
    let n = input.bytes;
    let mut out = [0u8; MOST_WRITTEN];
    let answer = rewrite(&spool[..n], &mut out);
    if let Err(e) = write(&mut rt.stdout(), answer, &out) {
        tell(&rt, "accfix: standard output", e);
        return;
    }
    let _ = answer_line(&mut rt.stderr(), answer);
}
