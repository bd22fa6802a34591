// What is lent to reader and rewriter: it holds other numbers than zeros before a call, and zeros behind what was written after it.
use std::io;
use std::io::Write;

pub fn soil_table(table: &mut [i64]) {
    table.fill(-7);
}

pub fn soil_output(out: &mut [u8]) {
    out.fill(165);
}

// Says so where a number of the table from this place on is not 0.
pub fn table_leavings<W: Write>(to: &mut W, from: usize, table: &[i64]) -> io::Result<()> {
    match table.get(from..) {
        Some(rest) if rest.iter().any(|z| *z != 0) => {
            to.write_all(b"the rest of the table is not zero\n")
        }
        _ => Ok(()),
    }
}

// Says so where a byte of the output from this place on is not 0.
pub fn output_leavings<W: Write>(to: &mut W, from: usize, out: &[u8]) -> io::Result<()> {
    match out.get(from..) {
        Some(rest) if rest.iter().any(|b| *b != 0) => {
            to.write_all(b"the rest of the output is not zero\n")
        }
        _ => Ok(()),
    }
}
