// The pieces between commas.
ghost use Rattle.std.specs.Prelude.{◌≡◌, ◌+◌, ◌-◌, ◌^◌, ◌<◌, ◌≤◌, length, drop};
ghost use Rattle.rules.specs.Base.{is_nil};
ghost use Rattle.leaves.specs.Bytes.{up_to};
ghost use Rattle.leaves.specs.Pieces.{decimal_piece, sign_length, size_piece, RunRead};

use crate::bytes::{digit, find};
use crate::{Decimal, DecimalPiece};

// A number as read, and where it ends: a run of digits, or a decimal without its sign in ten-thousandths.
#[derive(Clone, Copy)]
struct NumberEnd {
    value: u64,
    end: usize,
}

// The digits from at on, no more than `most`.
fn run(s: &[u8], at: usize, most: usize) -> NumberEnd
    requires { (at ≤ length s.now) × (most ≤ 8) }
    ensures { RunRead s.now at most result }
{
    let last = at + most.min(s.len() - at);
    let mut v: u64 = 0;
    for i in at..last {
        let b = s[i];
        if !digit(b) {
            return NumberEnd { value: v, end: i };
        }
        v = v * 10 + (b - b'0') as u64;
    }
    NumberEnd {
        value: v,
        end: last,
    }
}

// 10 ^ (4 - n): what the last of n digits behind the point counts, in ten-thousandths.
fn unit(n: usize) -> u64
    ensures { result ≡ 10 ^ (4 - n) }
{
    match n {
        0 => 10000,
        1 => 1000,
        2 => 100,
        3 => 10,
        _ => 1,
    }
}

// A comma stands at i, or nothing more.
fn ends(s: &[u8], i: usize) -> bool
    ensures { result ≡ is_nil (up_to 44 (drop i s.now)) }
{
    s.len() <= i || s[i] == b','
}

// The decimal without a sign that stands from at to a comma or the end.
fn size_piece(s: &[u8], at: usize) -> Option<NumberEnd>
    requires { at ≤ length s.now }
    ensures { result ≡ size_piece at s.now }
{
    let whole = run(s, at, 7);
    let v = whole.value;
    let i = whole.end;
    if i == at {
        return None;
    }
    if ends(s, i) {
        return Some(NumberEnd {
            value: v * 10000,
            end: i,
        });
    }
    if s[i] != b'.' {
        return None;
    }
    let k = i + 1;
    let fraction = run(s, k, 4);
    let f = fraction.value;
    let j = fraction.end;
    if j == k {
        return None;
    }
    if !ends(s, j) {
        return None;
    }
    Some(NumberEnd {
        value: v * 10000 + f * unit(j - k),
        end: j,
    })
}

// 1 behind a `-` in front, else 0
fn behind_sign(s: &[u8]) -> usize
    ensures { result ≡ sign_length s.now }
{
    usize::from(s.starts_with(b"-"))
}

// The decimal before the first comma, and where it ends, in one pass. What is no decimal has its end searched for.
pub fn decimal_piece(s: &[u8]) -> DecimalPiece
    ensures { result ≡ decimal_piece s.now }
{
    let at = behind_sign(s);
    let Some(p) = size_piece(s, at) else {
        return DecimalPiece {
            reading: None,
            end: find(s, b','),
        };
    };
    let z = p.value as i64;
    let value = if at == 1 { -z } else { z };
    DecimalPiece {
        reading: Some(Decimal { value }),
        end: p.end,
    }
}
