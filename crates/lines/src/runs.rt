// Runs of a line's bytes: its blanks, its key, the allowed bytes behind it.
ghost use Rattle.std.specs.Prelude.{◌≡◌, ◌≤◌, length, drop};
ghost use Rattle.rules.specs.Base.{within};
ghost use Rattle.rules.specs.Lines.{single_byte, lead_byte, trail_byte};
ghost use Rattle.lines.specs.LineForms.{blank_of, Blanks, opens_here, char_of, key_char, key_byte, IfAny, Passed, KeyPassed, CleanRun, KeyRun};

use crate::SPACE;

const TAB: u8 = 9;

const WIDE_LEAD: u8 = 129;

const WIDE_TRAIL: u8 = 64;

// How many bytes the blank at a place has, if one stands there.
fn blank_at(s: &[u8], i: usize) -> Option<usize>
    requires { i ≤ length s.now }
    ensures { IfAny result (blank_of (drop i s.now)) }
{
    let b = *s.get(i)?;
    if b == SPACE || b == TAB {
        return Some(1);
    }
    if b != WIDE_LEAD {
        return None;
    }
    let next = *s.get(i + 1)?;
    if next != WIDE_TRAIL {
        return None;
    }
    Some(2)
}

// How many bytes of leading blanks a line has.
pub(crate) fn indent(s: &[u8]) -> usize
    ensures { Blanks s.now result }
{
    let mut i = 0;
    while let Some(n) = blank_at(s, i) {
        i += n;
    }
    i
}

// Whether `:{` stands at a place.
pub(crate) fn opens_at(s: &[u8], i: usize) -> bool
    requires { i ≤ length s.now }
    ensures { result ≡ opens_here (drop i s.now) }
{
    if s.len() <= i + 1 {
        return false;
    }
    s[i] == b':' && s[i + 1] == b'{'
}

fn single_byte(b: u8) -> bool
    ensures { result ≡ single_byte b }
{
    matches!(b, 32..=126 | 161..=223)
}

fn lead_byte(b: u8) -> bool
    ensures { result ≡ lead_byte b }
{
    matches!(b, 129..=159 | 224..=252)
}

fn trail_byte(b: u8) -> bool
    ensures { result ≡ trail_byte b }
{
    matches!(b, 64..=126 | 128..=252)
}

// How many bytes the character at a place has: one that stands alone, or a pair, if one that is allowed stands there.
fn char_at(t: &[u8], i: usize) -> Option<usize>
    requires { i ≤ length t.now }
    ensures { IfAny result (char_of (drop i t.now)) }
{
    let b = *t.get(i)?;
    if single_byte(b) {
        return Some(1);
    }
    if !lead_byte(b) {
        return None;
    }
    let next = *t.get(i + 1)?;
    if !trail_byte(next) {
        return None;
    }
    Some(2)
}

// The same of a key: none also where the key ends.
fn key_char(t: &[u8], i: usize) -> Option<usize>
    requires { i ≤ length t.now }
    ensures { IfAny result (key_char (drop i t.now)) }
{
    let b = *t.get(i)?;
    if b == b'=' || opens_at(t, i) {
        return None;
    }
    char_at(t, i)
}

// Printing ASCII.
fn printing(b: u8) -> bool
    ensures { result ≡ within 32 126 b }
{
    matches!(b, b' '..=b'~')
}

// Over printing ASCII from a place on: nearly all bytes are of these, so the loop tests nothing else. (A chain of iterators here and in
// `plain_key` is 8 to 40 hundredths slower.)
fn plain_run(t: &[u8], from: usize) -> usize
    requires { from ≤ length t.now }
    ensures { Passed t.now from result }
{
    for i in from..t.len() {
        if !printing(t[i]) {
            return i;
        }
    }
    t.len()
}

// Printing ASCII that cannot end a key.
fn key_byte(b: u8) -> bool
    ensures { result ≡ key_byte b }
{
    b != b'=' && (b != b':' && printing(b))
}

// The same over these, from a place on.
fn plain_key(t: &[u8], from: usize) -> usize
    requires { from ≤ length t.now }
    ensures { KeyPassed t.now from result }
{
    for i in from..t.len() {
        if !key_byte(t[i]) {
            return i;
        }
    }
    t.len()
}

// Over the allowed bytes from a place on. (One function over this and `key_run`, by closures, would say more in its contract than both do.)
pub(crate) fn clean_run(t: &[u8], from: usize) -> usize
    requires { from ≤ length t.now }
    ensures { CleanRun t.now from result }
{
    let mut i = plain_run(t, from);
    while let Some(n) = char_at(t, i) {
        i = plain_run(t, i + n);
    }
    i
}

// Over the allowed bytes of a key from a place on: "The key ends at the first `=` or `:{`".
pub(crate) fn key_run(t: &[u8], from: usize) -> usize
    requires { from ≤ length t.now }
    ensures { KeyRun t.now from result }
{
    let mut i = plain_key(t, from);
    while let Some(n) = key_char(t, i) {
        i = plain_key(t, i + n);
    }
    i
}
