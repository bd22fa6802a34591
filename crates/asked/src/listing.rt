// A spool's records: a line `answer volume line records`, then, if accepted, one line of 32 numbers for each record.
use crate::Front;
use crate::lent::{soil_table, table_leavings};
use sets::read;
use std::io;
use std::io::Write;

pub fn list<W: Write>(to: &mut W, spool: &[u8], front: Front, table: &mut [i64]) -> io::Result<()> {
    soil_table(table);
    let answer = read(spool, front.cls, front.wire, table);
    shows::answer_line(to, answer)?;
    match answer {
        Ok(count) => {
            shows::records(to, count as u64, table)?;
            table_leavings(to, 32 * count as usize, table)
        }
        Err(_) => table_leavings(to, 0, table),
    }
}
