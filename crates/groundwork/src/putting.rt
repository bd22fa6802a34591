// The way of a record to the table. Blocks write on a scratch of three records; here a record that a line made complete is put into the table, and its
// part of the scratch is made zeros again.
ghost use Rattle.std.specs.Prelude.{◌≡◌, ◌<◌, length};
ghost use Rattle.account.specs.Putting.{within_limit, line_place, line_completed, close_completed, completed, close_number, number_for, put_record, put_header, put_wire, put_by, cleared_by, own_after};
ghost use Rattle.account.specs.Numbering.{header_length, scratch_length};
ghost use Rattle.rules.specs.RecordTable.{width};

use account::{
    BLOCK_CHAIN, BLOCK_DEFINES, BLOCK_DRAWING, BLOCK_FIGURES, BLOCK_FILE, BLOCK_SYMBOL, BLOCK_TOP,
    BLOCK_WIRE, Complete, Now, SCRATCH_LENGTH, Step,
};
use leaves::write::copy;
use rules::{Rule, WIDTH};

// "19: record doesn't fit the table": a line that took a record too many is refused. It is the last thing that is asked of a line.
pub fn within(limit: usize, did: Step) -> Step
    ensures { result ≡ within_limit limit did }
{
    match did {
        Step::Go(n) if limit < n.records => Step::Stop(Rule::Table as u8),
        _ => did,
    }
}

// Where a line's own record stands on the scratch: a point's behind that of its `successive`, an element's before its wire's two.
fn line_place(block: u8) -> usize
    ensures { result ≡ line_place block }
{
    match block {
        BLOCK_CHAIN => WIDTH + WIDTH,
        BLOCK_WIRE => 0,
        _ => WIDTH,
    }
}

// In the block that stays open: the record of the line, where it took one.
fn line_completed(was: Now, is: Now) -> Complete
    ensures { result ≡ line_completed was is }
{
    if was.records == is.records {
        Complete::Nothing
    } else {
        Complete::Record(line_place(was.block))
    }
}

// Into another block: that of the block that closed, where it has one.
fn close_completed(was: Now, is: Now) -> Complete
    ensures { result ≡ close_completed was is }
{
    match was.block {
        BLOCK_WIRE => Complete::Wire,
        block if BLOCK_FIGURES < block => Complete::Record(WIDTH),
        BLOCK_SYMBOL if is.block == BLOCK_DEFINES => Complete::Record(0),
        BLOCK_DRAWING if is.block == BLOCK_TOP => Complete::Record(0),
        BLOCK_FILE => Complete::Header,
        _ => Complete::Nothing,
    }
}

fn completed(was: Now, is: Now) -> Complete
    ensures { result ≡ completed was is }
{
    if was.block == is.block {
        line_completed(was, is)
    } else {
        close_completed(was, is)
    }
}

fn close_number(was: Now, is: Now, own: usize) -> usize
    ensures { result ≡ close_number was is own }
{
    match was.block {
        BLOCK_CHAIN => is.records.saturating_sub(was.points as usize + 1),
        BLOCK_WIRE => is.records.saturating_sub(was.points as usize + 2),
        block if BLOCK_CHAIN < block => is.records.saturating_sub(1),
        _ => own,
    }
}

// The number of the complete record in the table, from 0.
fn number_for(was: Now, is: Now, own: usize) -> usize
    ensures { result ≡ number_for was is own }
{
    if was.block == is.block {
        was.records
    } else {
        close_number(was, is, own)
    }
}

// A table that ends before this number's place is left as it is.
fn put_record(rec: &[i64], number: usize, t: &mut [i64])
    requires { length rec.now ≡ width }
    ensures { t.new ≡ put_record number rec.now t.old }
{
    if number < t.len() / WIDTH {
        let w = WIDTH * number;
        copy(rec, &mut t[w..w + WIDTH]);
    }
}

// "1 header", and "2 volume: this_line, this_ele; after the header"
fn put_header(first: bool, header: &[i64], number: usize, t: &mut [i64])
    requires { (length header.now ≡ header_length) × (number < 18446744073709551615) }
    ensures { t.new ≡ put_header first number header.now t.old }
{
    put_record(&header[0..WIDTH], number, t);
    if first {
        put_record(&header[WIDTH..WIDTH + WIDTH], number + 1, t);
    }
}

// A wire's two, which stand behind the first record of the scratch.
fn put_wire(scratch: &[i64], number: usize, t: &mut [i64])
    requires { (length scratch.now ≡ scratch_length) × (number < 18446744073709551615) }
    ensures { t.new ≡ put_wire number scratch.now t.old }
{
    put_record(&scratch[WIDTH..WIDTH + WIDTH], number, t);
    put_record(&scratch[WIDTH + WIDTH..SCRATCH_LENGTH], number + 1, t);
}

// What a line made complete goes to the table. `own` is the number of the record of the drawing, the symbol or the header that was open.
pub fn put_done(
    first: bool,
    was: Now,
    is: Now,
    own: usize,
    header: &[i64],
    scratch: &mut [i64],
    t: &mut [i64],
)
    requires { (length header.now ≡ header_length) × (length scratch.old ≡ scratch_length) × (own < 18446744073709551615) }
    ensures { (scratch.new ≡ cleared_by (completed was is) scratch.old) × (t.new ≡ put_by (completed was is) first (number_for was is own) header.now scratch.old t.old) }
{
    match completed(was, is) {
        Complete::Nothing => {}
        Complete::Record(from) => {
            let to = from + WIDTH;
            put_record(&scratch[from..to], number_for(was, is, own), t);
            scratch[from..to].fill(0);
        }
        Complete::Header => put_header(first, header, own, t),
        Complete::Wire => {
            put_wire(scratch, number_for(was, is, own), t);
            scratch[WIDTH..WIDTH + WIDTH].fill(0);
            scratch[WIDTH + WIDTH..SCRATCH_LENGTH].fill(0);
        }
    }
}

// At the top level and in SYMBOL_DEFINE a record that is taken is that of the block that opens: its number is kept till that closes.
pub fn own_after(was: Now, own: usize) -> usize
    ensures { result ≡ own_after was own }
{
    match was.block {
        BLOCK_TOP | BLOCK_DEFINES => was.records,
        _ => own,
    }
}
