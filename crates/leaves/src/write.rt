ghost use Rattle.std.specs.Prelude.{◌≡◌, ◌≤◌, ◌/◌, ◌%◌, ◌++◌, ◌∷◌, length, drop, take, replicate};
ghost use Rattle.rules.specs.Numbers.{fixed, trim, trim_end, show_count, show_size, show_decimal};
ghost use Rattle.rules.specs.Values.{show_sheet, show_ratio};
ghost use Rattle.leaves.specs.Writing.{Puts, width, laid_size};

use crate::NoRoom;

// All zeros, whatever it held.
pub fn clear(out: &mut [u8])
    ensures { out.new ≡ replicate (length out.old) 0 }
{
    out.fill(0);
}

// What std's `copy_from_slice` does, by a loop: that one calls memmove, and the archive for C asks its hosts for memcpy and memset alone.
pub fn copy<T: Copy>(from: &[T], to: &mut [T])
    requires { length from.now ≡ length to.old }
    ensures { to.new ≡ from.now }
{
    for i in 0..from.len() {
        to[i] = from[i];
    }
}

// A text at the front of out, where it fits; where it does not, out stays as it is.
pub fn put(text: &[u8], out: &mut [u8]) -> Result<usize, NoRoom>
    ensures { Puts text.now out.old out.new result }
{
    if out.len() < text.len() {
        return Err(NoRoom);
    }
    copy(text, &mut out[..text.len()]);
    Ok(text.len())
}

// One text behind the other, where both fit. The second is written first, so that nothing is written where there is no room for both.
fn put_both(first: &[u8], second: &[u8], out: &mut [u8]) -> Result<usize, NoRoom>
    ensures { Puts (first.now ++ second.now) out.old out.new result }
{
    let n = first.len();
    if out.len() < n {
        return Err(NoRoom);
    }
    let m = put(second, &mut out[n..])?;
    copy(first, &mut out[..n]);
    Ok(n + m)
}

// All of out as the last digits of n, from the last to the first.
fn fill_digits(n: u64, out: &mut [u8])
    ensures { out.new ≡ fixed (length out.old) n }
{
    let mut left = n;
    for i in (0..out.len()).rev() {
        out[i] = b'0' + (left % 10) as u8;
        left /= 10;
    }
}

// How many zeros in front of the digits s are needless: one digit stays.
fn needless(s: &[u8]) -> usize
    ensures { (result ≤ length s.now) × (drop result s.now ≡ trim s.now) }
{
    let most = s.len().saturating_sub(1);
    s[..most].iter().position(|b| *b != b'0').unwrap_or(most)
}

// The digits of s without needless zeros in front.
fn put_trimmed(s: &[u8], out: &mut [u8]) -> Result<usize, NoRoom>
    ensures { Puts (trim s.now) out.old out.new result }
{
    let zeros = needless(s);
    put(&s[zeros..], out)
}

// A count without needless zeros: twenty digits hold any u64.
pub fn put_count(n: u64, out: &mut [u8]) -> Result<usize, NoRoom>
    ensures { Puts (show_count 20 n) out.old out.new result }
{
    let mut digits = [0u8; 20];
    fill_digits(n, &mut digits);
    put_trimmed(&digits, out)
}

// w, but no more than eight
fn at_most_eight(w: u8) -> usize
    ensures { result ≡ width w }
{
    w.min(8) as usize
}

// Exactly w digits. Document 01 asks for no more than eight: a greater w is as eight.
pub fn put_fixed(n: u64, w: u8, out: &mut [u8]) -> Result<usize, NoRoom>
    ensures { Puts (fixed (width w) n) out.old out.new result }
{
    let digits = at_most_eight(w);
    if out.len() < digits {
        return Err(NoRoom);
    }
    fill_digits(n, &mut out[..digits]);
    Ok(digits)
}

// How many of the digits s stay without the zeros at the end.
fn needed(s: &[u8]) -> usize
    ensures { (result ≤ length s.now) × (take result s.now ≡ trim_end s.now) }
{
    for i in (0..s.len()).rev() {
        if s[i] != b'0' {
            return i + 1;
        }
    }
    0
}

// A size in ten-thousandths, with all its digits, behind one place for a sign.
fn lay_size(m: u64) -> [u8; 13]
    ensures { result ≡ laid_size m }
{
    let mut text = [48u8; 13];
    text[8] = b'.';
    fill_digits(m / 10000, &mut text[1..8]);
    fill_digits(m % 10000, &mut text[9..13]);
    text
}

// A size in ten-thousandths without needless zeros, and without a point where nothing stands behind it.
pub fn put_size(m: u64, out: &mut [u8]) -> Result<usize, NoRoom>
    ensures { Puts (show_size m) out.old out.new result }
{
    let text = lay_size(m);
    let start = 1 + needless(&text[1..8]);
    if m % 10000 == 0 {
        return put(&text[start..8], out);
    }
    let end = 9 + needed(&text[9..13]);
    put(&text[start..end], out)
}

// A size behind a `-`; the size is written first, so that nothing is written where there is no room for both.
fn put_minus(m: u64, out: &mut [u8]) -> Result<usize, NoRoom>
    ensures { Puts (45 ∷ show_size m) out.old out.new result }
{
    if out.is_empty() {
        return Err(NoRoom);
    }
    let n = put_size(m, &mut out[1..])?;
    out[0] = b'-';
    Ok(n + 1)
}

// A decimal without needless zeros.
pub fn put_decimal(z: i64, out: &mut [u8]) -> Result<usize, NoRoom>
    ensures { Puts (show_decimal z) out.old out.new result }
{
    if z < 0 {
        return put_minus(z.unsigned_abs(), out);
    }
    put_size(z.unsigned_abs(), out)
}

// A sheet: its n, if it is not 1, then `A` and its number.
pub fn put_sheet(n: u64, a: u64, out: &mut [u8]) -> Result<usize, NoRoom>
    ensures { Puts (show_sheet n a) out.old out.new result }
{
    let mut name = [b'A'; 2];
    fill_digits(a, &mut name[1..2]);
    if n == 1 {
        return put(&name, out);
    }
    let mut digits = [0u8; 2];
    fill_digits(n, &mut digits);
    let zeros = needless(&digits);
    put_both(&digits[zeros..], &name, out)
}

// A scale: p, and `/` and q if q is not 1. The `/` takes the place before q's first needed digit.
pub fn put_ratio(p: u64, q: u64, out: &mut [u8]) -> Result<usize, NoRoom>
    ensures { Puts (show_ratio p q) out.old out.new result }
{
    let mut first = [0u8; 9];
    fill_digits(p, &mut first);
    if q == 1 {
        return put_trimmed(&first, out);
    }
    let mut second = [0u8; 10];
    fill_digits(q, &mut second[1..10]);
    let start = needless(&first);
    let slash = needless(&second[1..10]);
    second[slash] = b'/';
    put_both(&first[start..], &second[slash..], out)
}
