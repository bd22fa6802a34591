ghost use Rattle.std.specs.Prelude.{◌≡◌, ◌≤◌, length};
ghost use Rattle.rules.specs.Numbers.{read_count, is_day, is_clock, read_decimal};
ghost use Rattle.leaves.specs.Readings.{reading_of, run_from, read_run, read_up_to_eight, read_day, read_clock};

use crate::Decimal;
use crate::bytes::{digit, within};
use crate::pieces::decimal_piece;

// The number that the digits of s write: at most ten, so that it fits.
fn digits_from(s: &[u8]) -> Option<u64>
    requires { length s.now ≤ 10 }
    ensures { result ≡ run_from 0 s.now }
{
    let mut v: u64 = 0;
    for &b in s {
        if !digit(b) {
            return None;
        }
        v = v * 10 + (b - b'0') as u64;
    }
    Some(v)
}

// least to most digits and nothing else
fn digits(s: &[u8], least: usize, most: usize) -> Option<u64>
    requires { most ≤ 10 }
    ensures { result ≡ read_run least most s.now }
{
    if s.len() < least || most < s.len() {
        return None;
    }
    digits_from(s)
}

// A count: 1 to 9 digits.
pub fn count(s: &[u8]) -> Option<u64>
    ensures { result ≡ read_count 9 s.now }
{
    digits(s, 1, 9)
}

// A serial number: 1 to 10 digits.
pub fn serial(s: &[u8]) -> Option<u64>
    ensures { result ≡ read_count 10 s.now }
{
    digits(s, 1, 10)
}

// Exactly w digits. Document 01 asks for no more than eight: a greater w reads nothing.
pub fn fixed(s: &[u8], w: u8) -> Option<u64>
    ensures { result ≡ read_up_to_eight w s.now }
{
    if 8 < w {
        return None;
    }
    digits(s, w as usize, w as usize)
}

fn is_day(n: u64) -> bool
    ensures { result ≡ is_day n }
{
    within(1, 12, n / 100 % 100) && within(1, 31, n % 100)
}

fn is_clock(n: u64) -> bool
    ensures { result ≡ is_clock n }
{
    n / 10000 <= 23 && n / 100 % 100 <= 59 && n % 100 <= 59
}

// A date: eight digits.
pub fn day(s: &[u8]) -> Option<u64>
    ensures { result ≡ read_day s.now }
{
    digits(s, 8, 8).filter(|n| is_day(*n))
}

// A time: six digits.
pub fn clock(s: &[u8]) -> Option<u64>
    ensures { result ≡ read_clock s.now }
{
    digits(s, 6, 6).filter(|n| is_clock(*n))
}

// A decimal: an optional `-`, 1 to 7 digits, optionally `.` and 1 to 4 digits.
pub fn decimal(s: &[u8]) -> Option<Decimal>
    ensures { result ≡ reading_of (read_decimal s.now) }
{
    let p = decimal_piece(s);
    if p.end < s.len() {
        return None;
    }
    p.reading
}
