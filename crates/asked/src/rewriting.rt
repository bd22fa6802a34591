// A spool's fixed form: a line `answer volume line bytes`. Where the spool is accepted the fixed form follows; then what it is read back as at
// class 15 with wire part 18, a line `answer volume line records` and the records with their places made 0; then what it is rewritten to, line and bytes.
use crate::lent::{output_leavings, soil_output, soil_table};
use sets::{read, rewrite};
use std::io;
use std::io::Write;

// A record's numbers.
const WIDTH: usize = 32;

// 256 records.
const MOST_NUMBERS: usize = 256 * WIDTH;

const MOST_WRITTEN: usize = 61440;

// The class and the wire part that skip nothing.
const FULL_CLASS: u64 = 15;

const FULL_WIRE: u64 = 18;

// The header's eight texts stand one behind the other, each a place and a length.
fn is_header_text(i: usize) -> bool {
    16 <= i && i % 2 == 0
}

fn is_drawing_text(i: usize) -> bool {
    i == 12 || i == 14 || i == 16
}

// Where a record of a kind has the place of a text in the spool (document 01, "Record table").
fn is_text_place(kind: i64, i: usize) -> bool {
    match kind {
        1 => is_header_text(i),
        3 => is_drawing_text(i),
        4 => i == 5,
        5 => i == 7,
        15 => i == 12,
        35 => i == 12,
        16 => i == 12 || i == 24,
        19 => i == 14 || i == 16,
        _ => false,
    }
}

// "Places, in demand 2, are line numbers and byte places of text."
fn is_place(kind: i64, i: usize) -> bool {
    i == 3 || is_text_place(kind, i)
}

// A record, its places made 0.
fn without_places(rec: &mut [i64]) {
    let Some(kind) = rec.first().copied() else {
        return;
    };
    for (i, z) in rec.iter_mut().enumerate() {
        if is_place(kind, i) {
            *z = 0;
        }
    }
}

// The records of a table without their places.
fn places_apart(table: &mut [i64]) {
    for rec in table.chunks_exact_mut(WIDTH) {
        without_places(rec);
    }
}

// Reads a fixed form back.
fn read_back<W: Write>(to: &mut W, written: &[u8]) -> io::Result<()> {
    let mut table = [0i64; MOST_NUMBERS];
    soil_table(&mut table);
    let answer = read(written, FULL_CLASS, FULL_WIRE, &mut table);
    shows::answer_line(to, answer)?;
    let Ok(count) = answer else {
        return Ok(());
    };
    places_apart(&mut table);
    shows::records(to, count as u64, &table)
}

// Rewrites a spool and gives the count of bytes; 0 where it is refused.
fn written_bytes<W: Write>(to: &mut W, spool: &[u8], out: &mut [u8]) -> io::Result<usize> {
    soil_output(out);
    let answer = rewrite(spool, out);
    shows::answer_line(to, answer)?;
    match answer {
        Ok(count) => {
            output_leavings(to, count as usize, out)?;
            Ok(count as usize)
        }
        Err(_) => {
            output_leavings(to, 0, out)?;
            Ok(0)
        }
    }
}

// A fixed form, read back and rewritten.
fn again<W: Write>(to: &mut W, written: &[u8], out: &mut [u8]) -> io::Result<()> {
    to.write_all(written)?;
    shows::newline(to)?;
    read_back(to, written)?;
    let n = written_bytes(to, written, out)?;
    if out.len() < n {
        return Ok(());
    }
    to.write_all(&out[..n])?;
    shows::newline(to)
}

fn rewrite_again<W: Write>(to: &mut W, written: &[u8]) -> io::Result<()> {
    let mut out = [0u8; MOST_WRITTEN];
    again(to, written, &mut out)
}

pub fn rewrite_twice<W: Write>(to: &mut W, spool: &[u8], out: &mut [u8]) -> io::Result<()> {
    let n = written_bytes(to, spool, out)?;
    if n == 0 {
        return Ok(());
    }
    if out.len() < n {
        return Ok(());
    }
    rewrite_again(to, &out[..n])
}
