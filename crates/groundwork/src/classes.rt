// Range classes and ranges: digits that count one by one.
ghost use Rattle.std.specs.Prelude.{◌≡◌};
ghost use Rattle.rules.specs.RangeClass.{is_symbol_part, is_wire_part, class_of, reaches, exceeds, both, hides};
ghost use Rattle.account.specs.Classes.{class_in, less_of};

use crate::blocks::digits_of;
use rules::{Class, Digits};

// "1 to 5 or 11 to 15"
fn is_symbol_part(n: u64) -> bool
    ensures { result ≡ is_symbol_part n }
{
    matches!(n, 1..=5 | 11..=15)
}

// "1 to 8 or 11 to 18, or 0"
fn is_wire_part(n: u64) -> bool
    ensures { result ≡ is_wire_part n }
{
    matches!(n, 0..=8 | 11..=18)
}

// A class by its number and its wire part.
#[tactic(auto, unfolding(rules::specs::RangeClass::class_of))]
pub fn class_of(n: u64, wire: u64) -> Option<Class>
    ensures { result ≡ class_in (class_of n wire) }
{
    if !is_symbol_part(n) || !is_wire_part(wire) {
        return None;
    }
    Some(Class {
        symbols: digits_of(n as u32),
        wires: digits_of(wire as u32),
    })
}

// d has at least the digits that l asks for.
pub(crate) fn reaches(d: Digits, l: Digits) -> bool
    ensures { result ≡ reaches d l }
{
    l.middle <= d.middle && l.last <= d.last
}

// A digit of d exceeds that of the class.
pub fn exceeds(d: Digits, c: Digits) -> bool
    ensures { result ≡ exceeds d c }
{
    c.middle < d.middle || c.last < d.last
}

pub fn less(a: u8, b: u8) -> u8
    ensures { result ≡ less_of a b }
{
    a.min(b)
}

// What the file allows and the class knows.
pub fn both(c: Digits, d: Digits) -> Digits
    ensures { result ≡ both c d }
{
    Digits {
        middle: less(c.middle, d.middle),
        last: less(c.last, d.last),
    }
}

// What the file allows and the class doesn't know.
pub fn hides(c: Digits, d: Digits, l: Digits) -> bool
    ensures { result ≡ hides c d l }
{
    reaches(d, l) && !reaches(c, l)
}
