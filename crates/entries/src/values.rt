// All values of a line.
ghost use Rattle.std.specs.Prelude.{◌≡◌, true, ◌∷◌, ◌+◌, ◌/◌, ◌%◌, ◌<◌, ◌≤◌, pos, length, get_or};
ghost use Rattle.std.specs.Int.Signed.{lt_z};
ghost use Rattle.std.proofs.lemmas.List.Edits.{sets};
ghost use Rattle.rules.specs.Base.{split};
ghost use Rattle.rules.specs.Values.{read_all, read_kind, equal_z};
ghost use Rattle.rules.specs.RecordTable.{numbers, columns};
ghost use Rattle.tables.specs.Rows.{part_of, parts_of, across_of, values_of};
ghost use Rattle.entries.specs.Names.{known_of};
ghost use Rattle.entries.specs.Entering.{Puts, done_of, put_val, least_of, plainly, last_of, settled, agree_from};

use crate::Known;
use crate::by_forms::forms_for;
use crate::parts::piece;
use crate::powers::{amount_at, served_power};
use rules::Rule;
use tables::{ACROSS_ARC, ACROSS_AXES, ACROSS_ENDS, ACROSS_POWER, Row};

// A value to its place, where it is one.
pub(crate) fn put_value(v: Result<i64, u8>, p: usize, rec: &mut [i64]) -> Result<(), u8>
    requires { p < length rec.old }
    ensures { (result ≡ done_of v) × (rec.new ≡ put_val v p rec.old) }
{
    rec[p] = v?;
    Ok(())
}

// The smaller of two numbers on one line.
fn least(a: Result<(), u8>, b: Result<(), u8>) -> Result<(), u8>
    ensures { result ≡ least_of a b }
{
    match (a, b) {
        (Err(m), Err(n)) => Err(m.min(n)),
        (Err(_), Ok(())) => a,
        (Ok(()), _) => b,
    }
}

// The values of c by their forms: one, and so many more; they go to the places from p on. A wrong count of values is 10, and no
// value has a smaller number.
fn each(
    parts: u64,
    more: u8,
    known: &Known<'_>,
    c: &[u8],
    p: usize,
    rec: &mut [i64],
) -> Result<(), u8>
    requires { (p + more < length rec.old) }
    ensures { Puts (read_all (known_of known.now) (part_of (parts % 100) ∷ parts_of more (parts / 100)) (split 44 c.now)) (λ v. sets rec.old p (plainly v)) rec.new result }
{
    let last = p + more as usize;
    let mut codes = parts;
    let mut at = 0;
    let mut worst = Ok(());
    for to in p..last {
        let a = piece(codes % 100, known, &c[at..]);
        let e = at + a.end;
        if c.len() <= e {
            return least(worst, Err(Rule::Written as u8));
        }
        worst = least(worst, put_value(a.val, to, rec));
        codes /= 100;
        at = e + 1;
    }
    let a = piece(codes % 100, known, &c[at..]);
    if at + a.end < c.len() {
        return least(worst, Err(Rule::Written as u8));
    }
    least(worst, put_value(a.val, last, rec))
}

// The turn of a circle that was written without one, behind its six values.
const TURN: usize = 6;

const NO_TURN: i64 = -1;

// The rules across the values of a line.
fn agree(across: u8, rec: &[i64], p: usize) -> bool
    requires { p + last_of (across_of across) < length rec.now }
    ensures { result ≡ agree_from (across_of across) p rec.now }
{
    match across {
        ACROSS_ENDS => rec[p + 1] != rec[p + 3] || rec[p + 2] != rec[p + 4],
        ACROSS_ARC => rec[p + 4] != rec[p + 5],
        ACROSS_AXES => rec[p + 4] < rec[p + 3] && rec[p + 5] != rec[p + 6],
        ACROSS_POWER => served_power(
            amount_at(rec, p),
            amount_at(rec, p + 1),
            amount_at(rec, p + 2),
        ),
        _ => true,
    }
}

// A row's values, or those of a circle in a symbol; the rules across them are 11.
pub(crate) fn values(
    row: Row,
    known: &Known<'_>,
    c: &[u8],
    p: usize,
    rec: &mut [i64],
) -> Result<(), u8>
    requires { (length c.now ≤ 61440) × (p + columns (values_of row) ≤ length rec.old) × (settled (values_of row) ≡ true) }
    ensures { Puts (read_kind (known_of known.now) (values_of row) 0 c.now) (λ v. sets rec.old p (numbers v)) rec.new result }
{
    let f = forms_for(row, c);
    each(f.parts, f.more, known, c, p, rec)?;
    if f.turnless {
        rec[p + TURN] = NO_TURN;
        return Ok(());
    }
    if agree(f.across, rec, p) {
        Ok(())
    } else {
        Err(Rule::Value as u8)
    }
}
