// What the programs print: "one line `answer volume line records` in decimal, single spaces, newline at the end; if accepted, one line of 32
// numbers per record follows". Each line is laid first (text) and written by one call; a function's `Ok` says that all of it was written.
#![tactic(auto)]

ghost use Rattle.std.specs.Prelude.{◌≡◌, ◌≤◌, ◌*◌, ℕ, [], ◌∷◌, ◌++◌, map, length, take, OnOk};
ghost use Rattle.std.specs.Io.KnownBytes.{Appends};
ghost use Rattle.rules.specs.Base.{join};
ghost use Rattle.rules.specs.Answers.{answer_count, show_signed, print_line, first_line};
ghost use Rattle.promises.specs.Printing.{record_lines};

pub mod failure;
pub mod input;
pub mod questions;
pub mod text;

use leaves::NoRoom;
use rules::Refusal;
use std::io;
use std::io::Write;
use text::{put_answer, put_line};

// As many as the largest table that a program lends.
const MOST_RECORDS: usize = 10240;

// 21 bytes for each number hold any line (proofs, LineLengths).
const ANSWER_LINE: usize = 84;

const RECORD_LINE: usize = 672;

pub fn space<W: Write>(out: &mut W) -> io::Result<()>
    ensures { OnOk result (Appends (W.contents out.old) (W.contents out.new) (32 ∷ [])) }
{
    out.write_all(b" ")
}

pub fn newline<W: Write>(out: &mut W) -> io::Result<()>
    ensures { OnOk result (Appends (W.contents out.old) (W.contents out.new) (10 ∷ [])) }
{
    out.write_all(b"\n")
}

// There is less to write than was asked for.
fn nothing_there() -> io::Error {
    io::Error::from(io::ErrorKind::InvalidInput)
}

// The first n bytes.
pub fn write_front<W: Write>(out: &mut W, text: &[u8], n: usize) -> io::Result<()>
    ensures { OnOk result ((n ≤ length text.now) × Appends (W.contents out.old) (W.contents out.new) (take n text.now)) }
{
    if text.len() < n {
        return Err(nothing_there());
    }
    out.write_all(&text[..n])
}

fn write_laid<W: Write>(out: &mut W, text: &[u8], laid: Result<usize, NoRoom>) -> io::Result<()>
    ensures { OnOk result ((n : ℕ) × (laid ≡ Ok n) × Appends (W.contents out.old) (W.contents out.new) (take n text.now)) }
{
    match laid {
        Ok(n) => write_front(out, text, n),
        Err(NoRoom) => Err(nothing_there()),
    }
}

// An answer's line.
pub fn answer_line<W: Write>(out: &mut W, a: Result<u32, Refusal>) -> io::Result<()>
    ensures { OnOk result (Appends (W.contents out.old) (W.contents out.new) (print_line (first_line a))) }
{
    let mut line = [0u8; ANSWER_LINE];
    let laid = put_answer(a, &mut line);
    write_laid(out, &line, laid)
}

// The same without its newline.
pub fn answer<W: Write>(out: &mut W, a: Result<u32, Refusal>) -> io::Result<()>
    ensures { OnOk result (Appends (W.contents out.old) (W.contents out.new) (join 32 (map show_signed (first_line a)))) }
{
    let mut line = [0u8; ANSWER_LINE];
    let Ok(n) = put_answer(a, &mut line) else {
        return Err(nothing_there());
    };
    if n == 0 {
        return Err(nothing_there());
    }
    write_front(out, &line, n - 1)
}

fn record<W: Write>(out: &mut W, rec: &[i64]) -> io::Result<()>
    ensures { OnOk result (Appends (W.contents out.old) (W.contents out.new) (print_line rec.now)) }
{
    let mut line = [0u8; RECORD_LINE];
    let laid = put_line(rec, &mut line);
    write_laid(out, &line, laid)
}

// A table's records, so many; of more than 10,240 the first 10,240.
pub fn records<W: Write>(out: &mut W, count: u64, table: &[i64]) -> io::Result<()>
    ensures enough { OnOk result (32 * count ≤ length table.now) }
    ensures printed { OnOk result (Appends (W.contents out.old) (W.contents out.new) (record_lines count table.now)) }
{
    for i in 0..MOST_RECORDS {
        if count <= i as u64 {
            return Ok(());
        }
        let from = 32 * i;
        if table.len() < from + 32 {
            return Err(nothing_there());
        }
        record(out, &table[from..from + 32])?;
    }
    if count <= MOST_RECORDS as u64 {
        return Ok(());
    }
    Err(nothing_there())
}

// A reading: the line of its answer, then the lines of the table's records one after the other, each as it was laid (`put_answer`, `put_line`).
pub fn listing<W: Write>(out: &mut W, answer: Result<u32, Refusal>, table: &[i64]) -> io::Result<()>
    ensures { OnOk result (Appends (W.contents out.old) (W.contents out.new)
        (print_line (first_line answer) ++ record_lines (answer_count answer) table.now)) }
{
    answer_line(out, answer)?;
    match answer {
        Ok(count) => records(out, count as u64, table),
        Err(_) => Ok(()),
    }
}
