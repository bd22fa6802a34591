// The drawing's sheet and its scale.
ghost use Rattle.std.specs.Prelude.{◌≡◌};
ghost use Rattle.rules.specs.Base.{same};
ghost use Rattle.rules.specs.Numbers.{show_count};
ghost use Rattle.rules.specs.Values.{multipliers, sheets, find_sheet, read_ratio};
ghost use Rattle.leaves.specs.Drawing.{sheet_of, multiplier_in, numbered_sheet, ratio_of, one_count, two_counts};

use crate::bytes::{find, within};
use crate::numbers::count;
use crate::{Scale, SheetSize};
use rules::{Rule, SHEET_MULTIPLIERS};

// The text is n, without needless zeros: for n up to 99.
fn is_number(s: &[u8], n: u8) -> bool
    ensures { result ≡ same s.now (show_count 2 n) }
{
    let tens = b'0' + n / 10 % 10;
    let last = b'0' + n % 10;
    if tens == b'0' {
        return s == [last].as_slice();
    }
    s == [tens, last].as_slice()
}

// The multiplier that the text writes.
fn multiplier(s: &[u8]) -> Option<u8>
    ensures { result ≡ multiplier_in s.now multipliers }
{
    SHEET_MULTIPLIERS.iter().copied().find(|n| is_number(s, *n))
}

// A sheet by its n and the last byte of its name, which is `0` to `most`
fn numbered(multiplier: u8, most: u8, d: u8) -> Option<SheetSize>
    ensures { result ≡ numbered_sheet multiplier most d }
{
    if d < b'0' || most < d {
        return None;
    }
    Some(SheetSize {
        multiplier,
        number: d - b'0',
    })
}

// A0 to A4, or n then A0 or A1.
pub fn sheet(s: &[u8]) -> Option<SheetSize>
    ensures { result ≡ sheet_of (find_sheet s.now sheets) }
{
    if s.len() < 2 {
        return None;
    }
    let e = s.len() - 2;
    if s[e] != b'A' {
        return None;
    }
    let d = s[e + 1];
    if e == 0 {
        return numbered(1, b'4', d);
    }
    numbered(multiplier(&s[..e])?, b'1', d)
}

// p alone. The refusals are numbers, as `ratio` answers them to those who call it.
#[tactic(auto, unfolding(crate::specs::Drawing::one_count))]
fn one_count(a: Option<u64>) -> Result<Scale, u8>
    ensures { result ≡ one_count a }
{
    let p = a.ok_or(Rule::Written as u8)?;
    if within(1, 99999, p) {
        return Ok(Scale { p: p as u32, q: 1 });
    }
    Err(Rule::Value as u8)
}

// p and q
#[tactic(auto, unfolding(crate::specs::Drawing::two_counts))]
fn two_counts(a: Option<u64>, b: Option<u64>) -> Result<Scale, u8>
    ensures { result ≡ two_counts a b }
{
    let p = a.ok_or(Rule::Written as u8)?;
    let q = b.ok_or(Rule::Written as u8)?;
    if within(1, 99999, p) && within(1, 99999, q) && p < q {
        return Ok(Scale {
            p: p as u32,
            q: q as u32,
        });
    }
    Err(Rule::Value as u8)
}

// A scale: p, or p/q with p < q; a number not written as said is 10, one that breaks the rule 11.
pub fn ratio(s: &[u8]) -> Result<Scale, u8>
    ensures { result ≡ ratio_of (read_ratio s.now) }
{
    let e = find(s, b'/');
    if e == s.len() {
        return one_count(count(s));
    }
    let n = e + 1;
    let a = count(&s[..e]);
    let b = count(&s[n..]);
    two_counts(a, b)
}
