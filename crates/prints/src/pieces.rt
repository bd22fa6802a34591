// The pieces between commas.
ghost use Rattle.std.specs.Prelude.{◌/◌, ◌≡◌};
ghost use Rattle.rules.specs.Numbers.{read_count, read_decimal, show_count, show_decimal};
ghost use Rattle.leaves.specs.Writing.{Puts};
ghost use Rattle.prints.specs.Printing.{Lays};
ghost use Rattle.prints.specs.Texts.{anew, piece_text, next_forms, pieces_text};

use leaves::NoRoom;
use leaves::bytes::find;
use leaves::numbers::{decimal, serial};
use leaves::write::{put, put_count, put_decimal};
use tables::{PART_ANY_SIGN, PART_COUNT};

// A count or a serial number, without needless zeros.
fn count(c: &[u8], out: &mut [u8]) -> Result<usize, NoRoom>
    ensures { Puts (anew c.now (show_count 20) (read_count 10 c.now)) out.old out.new result }
{
    match serial(c) {
        Some(n) => put_count(n, out),
        None => put(c, out),
    }
}

fn size(c: &[u8], out: &mut [u8]) -> Result<usize, NoRoom>
    ensures { Puts (anew c.now show_decimal (read_decimal c.now)) out.old out.new result }
{
    match decimal(c) {
        Some(d) => put_decimal(d.value, out),
        None => put(c, out),
    }
}

// One piece by its form, from 20 on a decimal, 7 a count: any other stands as it was written.
pub(crate) fn piece(form: u64, c: &[u8], out: &mut [u8]) -> Result<usize, NoRoom>
    ensures { Puts (piece_text form c.now) out.old out.new result }
{
    match form {
        PART_ANY_SIGN.. => size(c, out),
        PART_COUNT => count(c, out),
        _ => put(c, out),
    }
}

// The forms of the pieces behind the first: all alike, or behind the first one's two digits.
fn behind_first(forms: u64, alike: bool) -> u64
    ensures { result ≡ next_forms forms alike }
{
    if alike { forms } else { forms / 100 }
}

// All pieces of c by their forms, two decimal digits each, the first one last. By a loop: a serial has up to 101
// of them, and a call for each would take 22 KB of stack. It ends in its middle: behind the last piece stands no comma.
pub(crate) fn pieces(forms: u64, alike: bool, c: &[u8], out: &mut [u8]) -> Result<usize, NoRoom>
    ensures { Lays (pieces_text forms alike c.now) out.old out.new result }
{
    let mut left = forms;
    let mut rest = c;
    let mut n = 0;
    loop {
        let e = find(rest, b',');
        if rest.len() <= e {
            return Ok(n + piece(left % 100, rest, &mut out[n..])?);
        }
        n += piece(left % 100, &rest[..e], &mut out[n..])?;
        n += put(b",", &mut out[n..])?;
        left = behind_first(left, alike);
        rest = &rest[e + 1..];
    }
}
