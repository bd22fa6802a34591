// One printed line, laid into a lent buffer: numbers in decimal, single spaces between them, a newline at the end (rules, Answers:
// `print_line`).
ghost use Rattle.std.specs.Prelude.{cond, [], ◌∷◌, ◌++◌, ◌≡◌, eqb};
ghost use Rattle.leaves.specs.Writing.{Puts};
ghost use Rattle.rules.specs.Answers.{show_number, show_signed, print_line, first_line};
ghost use Rattle.shows.specs.Laid.{Lays};

use leaves::NoRoom;
use leaves::write::{clear, put, put_count};
use rules::Refusal;

// A number behind a `-`; the number is written first, so that nothing is written where there is no room for both.
fn put_minus(n: u64, out: &mut [u8]) -> Result<usize, NoRoom>
    ensures { Puts (45 ∷ show_number n) out.old out.new result }
{
    if out.is_empty() {
        return Err(NoRoom);
    }
    let digits = put_count(n, &mut out[1..])?;
    out[0] = b'-';
    Ok(digits + 1)
}

// One is added before the sign is turned, for the least of all numbers.
fn put_signed(z: i64, out: &mut [u8]) -> Result<usize, NoRoom>
    ensures { Puts (show_signed z) out.old out.new result }
{
    if z < 0 {
        return put_minus(-(z + 1) as u64 + 1, out);
    }
    put_count(z as u64, out)
}

// A number and the byte behind it. The number is lent one byte less, so that nothing is written where there is no room for both.
fn put_ended(z: i64, end: u8, out: &mut [u8]) -> Result<usize, NoRoom>
    ensures { Puts (show_signed z ++ end ∷ []) out.old out.new result }
{
    if out.is_empty() {
        return Err(NoRoom);
    }
    let room = out.len() - 1;
    let n = put_signed(z, &mut out[..room])?;
    out[n] = end;
    Ok(n + 1)
}

// What stands behind the number that is followed by `left` others: a space, behind the last one a newline.
fn end_before(left: usize) -> u8
    ensures { result ≡ cond (eqb left 0) 10 32 }
{
    if left == 0 {
        return b'\n';
    }
    b' '
}

// The line of no number at all.
fn put_empty(out: &mut [u8]) -> Result<usize, NoRoom>
    ensures { Lays (10 ∷ []) out.old out.new result }
{
    put(b"\n", out)
}

// The line of these numbers at the front of out, where it fits; where it does not, out is all zeros.
pub fn put_line(zs: &[i64], out: &mut [u8]) -> Result<usize, NoRoom>
    ensures { Lays (print_line zs.now) out.old out.new result }
{
    if zs.is_empty() {
        return put_empty(out);
    }
    let mut at = 0;
    for (i, z) in zs.iter().enumerate() {
        let end = end_before(zs.len() - i - 1);
        let Ok(n) = put_ended(*z, end, &mut out[at..]) else {
            clear(out);
            return Err(NoRoom);
        };
        at += n;
    }
    Ok(at)
}

// The line of an answer.
pub fn put_answer(a: Result<u32, Refusal>, out: &mut [u8]) -> Result<usize, NoRoom>
    ensures { Lays (print_line (first_line a)) out.old out.new result }
{
    match a {
        Ok(count) => {
            let numbers = [0, 0, 0, count as i64];
            put_line(&numbers, out)
        }
        Err(f) => {
            let numbers = [f.number as i64, f.volume as i64, f.line as i64, 0];
            put_line(&numbers, out)
        }
    }
}
