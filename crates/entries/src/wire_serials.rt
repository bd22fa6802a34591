// A wire's serial: its own number, and its partners at the start and at the end.
ghost use Rattle.std.specs.Prelude.{[], ◌∷◌, ◌+◌, ◌≤◌, length};
ghost use Rattle.std.proofs.lemmas.List.Edits.{sets};
ghost use Rattle.rules.specs.Base.{split};
ghost use Rattle.rules.specs.Values.{read_partner, read_kind, wire_serial};
ghost use Rattle.rules.specs.RecordTable.{numbers};
ghost use Rattle.entries.specs.Names.{known_in};
ghost use Rattle.entries.specs.Entering.{Puts, plainly, read_ends};

use crate::contents::put_two;
use leaves::bytes::find;
use leaves::numbers::serial;
use rules::Rule;

// The states of a partner.
const PARTNER_EMPTY: u64 = 1;

const PARTNER_GIVEN: u64 = 2;

// A partner, which may be empty: its state and its number.
fn put_partner(c: &[u8], p: usize, rec: &mut [i64]) -> Result<(), u8>
    requires { p + 2 ≤ length rec.old }
    ensures { Puts (read_partner c.now) (λ v. sets rec.old p (plainly v)) rec.new result }
{
    if c.is_empty() {
        put_two(PARTNER_EMPTY, 0, p, rec);
        return Ok(());
    }
    put_two(PARTNER_GIVEN, serial(c).ok_or(Rule::Written as u8)?, p, rec);
    Ok(())
}

// Both partners, of which the last is all that stands behind the first one's comma.
fn put_both(first: &[u8], last: &[u8], p: usize, rec: &mut [i64]) -> Result<(), u8>
    requires { p + 4 ≤ length rec.old }
    ensures { Puts (read_ends (first.now ∷ split 44 last.now)) (λ v. sets rec.old p (plainly v)) rec.new result }
{
    if last.contains(&b',') {
        return Err(Rule::Written as u8);
    }
    put_partner(first, p, rec)?;
    put_partner(last, p + 2, rec)
}

// Both partners: exactly two items.
fn put_ends(c: &[u8], p: usize, rec: &mut [i64]) -> Result<(), u8>
    requires { p + 4 ≤ length rec.old }
    ensures { Puts (read_ends (split 44 c.now)) (λ v. sets rec.old p (plainly v)) rec.new result }
{
    let e = find(c, b',');
    if e < c.len() {
        put_both(&c[..e], &c[e + 1..], p, rec)
    } else {
        Err(Rule::Written as u8)
    }
}

// The own number and both partners: exactly three items. Whatever is wrong is 10.
pub(crate) fn put_wire_serial(c: &[u8], p: usize, rec: &mut [i64]) -> Result<(), u8>
    requires { p + 5 ≤ length rec.old }
    ensures { Puts (read_kind (known_in [] [] []) wire_serial 0 c.now) (λ v. sets rec.old p (numbers v)) rec.new result }
{
    let e = find(c, b',');
    if c.len() <= e {
        return Err(Rule::Written as u8);
    }
    rec[p] = serial(&c[..e]).ok_or(Rule::Written as u8)? as i64;
    put_ends(&c[e + 1..], p + 1, rec)
}
