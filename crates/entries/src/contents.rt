// The content of a line, by what its row holds.
ghost use Rattle.std.specs.Prelude.{◌≡◌, true, [], ◌∷◌, ◌+◌, ◌<◌, ◌≤◌, pos, length};
ghost use Rattle.std.proofs.lemmas.List.Edits.{sets};
ghost use Rattle.rules.specs.RefusalNumbers.{unless, got};
ghost use Rattle.rules.specs.Values.{chars, read_kind, sheet, ratio, serials};
ghost use Rattle.rules.specs.RecordTable.{numbers, columns};
ghost use Rattle.tables.specs.Rows.{kind_of};
ghost use Rattle.entries.specs.Names.{known_in, known_of};
ghost use Rattle.entries.specs.Entering.{Puts, settled, serials_in};

use crate::Known;
use crate::parts::single;
use crate::values::{put_value, values};
use crate::wire_serials::put_wire_serial;
use leaves::bytes::{all_in, find};
use leaves::numbers::serial;
use leaves::sheets::{ratio, sheet};
use leaves::texts::fits;
use rules::Rule;
use tables::{
    HOLDS_BLOCK, HOLDS_EITHER, HOLDS_HEADED, HOLDS_NOTHING, HOLDS_RATIO, HOLDS_SERIALS,
    HOLDS_SHEET, HOLDS_TEXT, HOLDS_VOLUME_NAME, HOLDS_WIRE_SERIAL, HOLDS_WORD, PART_RANGE_0_1, Row,
};

// Two numbers, one behind the other.
pub(crate) fn put_two(a: u64, b: u64, p: usize, rec: &mut [i64])
    requires { (a < 100000000000) × (b < 100000000000) × (p + 2 ≤ length rec.old) }
    ensures { rec.new ≡ sets rec.old p (pos a ∷ pos b ∷ []) }
{
    rec[p] = a as i64;
    rec[p + 1] = b as i64;
}

// A text that keeps its rule: its place and length.
fn put_text(keeps: bool, at: u32, c: &[u8], p: usize, rec: &mut [i64]) -> Result<(), u8>
    requires { (length c.now ≤ 61440) × (p + 2 ≤ length rec.old) }
    ensures { Puts (unless keeps 11 (got (chars at c.now))) (λ v. sets rec.old p (numbers v)) rec.new result }
{
    if !keeps {
        return Err(Rule::Value as u8);
    }
    put_two(at as u64, c.len() as u64, p, rec);
    Ok(())
}

fn put_sheet(c: &[u8], p: usize, rec: &mut [i64]) -> Result<(), u8>
    requires { p + 2 ≤ length rec.old }
    ensures { Puts (read_kind (known_in [] [] []) sheet 0 c.now) (λ v. sets rec.old p (numbers v)) rec.new result }
{
    let z = sheet(c).ok_or(Rule::Value as u8)?;
    put_two(z.multiplier as u64, z.number as u64, p, rec);
    Ok(())
}

fn put_ratio(c: &[u8], p: usize, rec: &mut [i64]) -> Result<(), u8>
    requires { p + 2 ≤ length rec.old }
    ensures { Puts (read_kind (known_in [] [] []) ratio 0 c.now) (λ v. sets rec.old p (numbers v)) rec.new result }
{
    let z = ratio(c)?;
    put_two(z.p as u64, z.q as u64, p, rec);
    Ok(())
}

// How many serial numbers there are, where all between commas are such.
fn serial_count(c: &[u8]) -> Option<u64>
    requires { length c.now ≤ 61440 }
    ensures { result ≡ serials_in c.now }
{
    let mut rest = c;
    let mut n = 0;
    // one pass: each number tells where the next one begins
    loop {
        let e = find(rest, b',');
        if rest.len() <= e {
            serial(rest)?;
            return Some(n + 1);
        }
        serial(&rest[..e])?;
        rest = &rest[e + 1..];
        n += 1;
    }
}

// The own serial number and how many partners there are, at most 100.
fn put_serials(c: &[u8], p: usize, rec: &mut [i64]) -> Result<(), u8>
    requires { (length c.now ≤ 61440) × (p + 2 ≤ length rec.old) }
    ensures { Puts (read_kind (known_in [] [] []) serials 0 c.now) (λ v. sets rec.old p (numbers v)) rec.new result }
{
    let n = serial_count(c).ok_or(Rule::Written as u8)?;
    if 101 < n {
        return Err(Rule::Value as u8);
    }
    let own = serial(&c[..find(c, b',')]).ok_or(Rule::Written as u8)?;
    put_two(own, n - 1, p, rec);
    Ok(())
}

// A content that is not empty, by its row; its numbers go to the places from p on.
pub(crate) fn read_kind(
    row: Row,
    at: u32,
    known: &Known<'_>,
    c: &[u8],
    p: usize,
    rec: &mut [i64],
) -> Result<(), u8>
    requires { (length c.now ≤ 61440) × (p + columns (kind_of row) ≤ length rec.old) × (settled (kind_of row) ≡ true) }
    ensures { Puts (read_kind (known_of known.now) (kind_of row) at c.now) (λ v. sets rec.old p (numbers v)) rec.new result }
{
    match row.kind {
        HOLDS_TEXT | HOLDS_WORD => put_text(fits(c, row.most, row.set), at, c, p, rec),
        HOLDS_VOLUME_NAME => put_text(all_in(c, 2), at, c, p, rec),
        HOLDS_SHEET => put_sheet(c, p, rec),
        HOLDS_RATIO => put_ratio(c, p, rec),
        HOLDS_SERIALS => put_serials(c, p, rec),
        HOLDS_NOTHING | HOLDS_BLOCK => Err(Rule::Form as u8),
        HOLDS_HEADED => put_value(single(row.parts, known, c), p, rec),
        HOLDS_EITHER => put_value(single(PART_RANGE_0_1, known, c), p, rec),
        HOLDS_WIRE_SERIAL => put_wire_serial(c, p, rec),
        _ => values(row, known, c, p, rec),
    }
}
