// The reader, the check and the rewriter, asked about one spool: the line that the reference prints (tests/reference/README.md tells how it is
// written). Table and output stand in it as their hashes.
use crate::Front;
use crate::lent::{soil_output, soil_table};
use host::ploverdell_check;
use sets::{read, rewrite};
use std::io;
use std::io::Write;

// FNV-1a, 64 bits: the hash of no bytes, and what each byte multiplies by.
const NO_BYTES: u64 = 0xCBF29CE484222325;

const PRIME: u64 = 0x100000001B3;

fn show<W: Write>(to: &mut W, n: u64) -> io::Result<()> {
    write!(to, "{n}")
}

fn show_hash<W: Write>(to: &mut W, h: u64) -> io::Result<()> {
    write!(to, "{h:016x}")
}

// The hash of more bytes behind those hashed before.
fn with_bytes(before: u64, bytes: &[u8]) -> u64 {
    bytes
        .iter()
        .fold(before, |h, b| (h ^ u64::from(*b)).wrapping_mul(PRIME))
}

// Each number as its eight bytes, the low one first.
fn hash_table(table: &[i64]) -> u64 {
    table
        .iter()
        .fold(NO_BYTES, |h, z| with_bytes(h, &z.to_le_bytes()))
}

fn show_reading<W: Write>(
    to: &mut W,
    spool: &[u8],
    front: Front,
    table: &mut [i64],
) -> io::Result<()> {
    soil_table(table);
    shows::answer(to, read(spool, front.cls, front.wire, table))?;
    shows::space(to)?;
    show_hash(to, hash_table(table))
}

fn show_rewriting<W: Write>(to: &mut W, spool: &[u8], out: &mut [u8]) -> io::Result<()> {
    soil_output(out);
    shows::answer(to, rewrite(spool, out))?;
    shows::space(to)?;
    show_hash(to, with_bytes(NO_BYTES, out))
}

pub fn compare<W: Write>(
    to: &mut W,
    spool: &[u8],
    front: Front,
    table: &mut [i64],
    out: &mut [u8],
) -> io::Result<()> {
    show_reading(to, spool, front, table)?;
    shows::space(to)?;
    show(to, ploverdell_check(spool, front.cls, front.wire))?;
    shows::space(to)?;
    show_rewriting(to, spool, out)?;
    shows::newline(to)
}
