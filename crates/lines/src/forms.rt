// A line of a volume: its form, by the places of its parts, and where the next line starts.
ghost use Rattle.std.specs.Prelude.{◌≡◌, ◌+◌, ◌<◌, ◌≤◌, length, Some};
ghost use Rattle.rules.specs.Lines.{line_form_of};
ghost use Rattle.lines.specs.LineFlaw.{told, Formed, bare_form, equal_form, brace_form};
ghost use Rattle.lines.specs.LineLook.{seen_at, look_in};

use crate::ends::cr_from;
use crate::runs::{clean_run, indent, key_run, opens_at};
use crate::{MOST_BYTES, Seen};
use leaves::bytes::spells;
use rules::{Equation, LineForm, Opener, Refusal, Rule, Span};

const COMMENT: u8 = b'#';

// Why a line is refused: a byte that is not allowed (4), no form (5).
#[derive(Clone, Copy, Debug, PartialEq, Eq)]
enum Flaw {
    BadBytes,
    NoForm,
}

// A line without a key, by its bytes behind the blanks.
fn bare_form(s: &[u8]) -> Result<LineForm, Flaw>
    ensures { result ≡ bare_form s.now }
{
    if s.is_empty() {
        return Ok(LineForm::Ignored);
    }
    if spells(s, b"}") {
        return Ok(LineForm::Close);
    }
    if spells(s, b"EOF") {
        return Ok(LineForm::Eof);
    }
    Err(Flaw::NoForm)
}

// A key with an `=` behind it, in a line that runs to the place `end`.
fn equal_form(key: Span, end: u32) -> Result<LineForm, Flaw>
    requires { key.at + key.len + 1 ≤ end }
    ensures { result ≡ equal_form key.at key.len end }
{
    if key.len == 0 {
        return Err(Flaw::NoForm);
    }
    let at = key.at + key.len + 1;
    let rest = Span { at, len: end - at };
    Ok(LineForm::Equals(Equation { key, rest }))
}

// A key with a `:{` behind it: nothing may follow.
fn brace_form(key: Span, end: u32) -> Result<LineForm, Flaw>
    requires { key.at + key.len + 2 ≤ end }
    ensures { result ≡ brace_form key.at key.len end }
{
    if key.len == 0 || key.at + key.len + 2 != end {
        return Err(Flaw::NoForm);
    }
    Ok(LineForm::Opens(Opener { key }))
}

// A line's bytes, whose first stands at a place of the spool.
fn form_at(l: &[u8], at: u32) -> Result<LineForm, Flaw>
    requires { at + length l.now ≤ 61440 }
    ensures { Formed at l.now result }
{
    if l.is_empty() || l[0] == COMMENT {
        return Ok(LineForm::Ignored);
    }
    let n = indent(l);
    let k = key_run(l, n);
    if k == l.len() {
        return bare_form(&l[n..]);
    }
    let key = Span {
        at: at + n as u32,
        len: (k - n) as u32,
    };
    let end = at + l.len() as u32;
    if l[k] == b'=' {
        if clean_run(l, k + 1) != l.len() {
            return Err(Flaw::BadBytes);
        }
        return equal_form(key, end);
    }
    if opens_at(l, k) {
        if clean_run(l, k + 2) != l.len() {
            return Err(Flaw::BadBytes);
        }
        return brace_form(key, end);
    }
    Err(Flaw::BadBytes)
}

// The form of a line: its bytes up to its CR, whose first stands at a place of the spool.
fn line_form(l: &[u8], at: u32, volume: u8, line: u32) -> LineForm
    requires { at + length l.now ≤ 61440 }
    ensures { result ≡ line_form_of volume line at l.now }
{
    let number = match form_at(l, at) {
        Ok(form) => return form,
        Err(Flaw::BadBytes) => Rule::Byte as u8,
        Err(Flaw::NoForm) => Rule::Form as u8,
    };
    LineForm::Refused(Refusal {
        number,
        volume,
        line,
    })
}

// A line with this form, its CR at a place.
fn seen(form: LineForm, cr: u32, end: u32) -> Seen
    requires { cr < 61440 }
    ensures { Some result ≡ seen_at form cr end }
{
    let next = cr + 2;
    Seen {
        form,
        next,
        last: next + 1 == end,
    }
}

// The line that starts at a place of the spool, in a volume whose bytes stand there from `base` on; other places are those of no line.
// Bytes that break rule 3 have lines too: each up to the next CR, with one byte behind it.
pub fn look(body: &[u8], base: u32, at: u32, volume: u8, line: u32) -> Option<Seen>
    ensures { result ≡ look_in volume line base at body.now }
{
    if MOST_BYTES < body.len() {
        return None;
    }
    if MOST_BYTES - body.len() < base as usize {
        return None;
    }
    if at < base {
        return None;
    }
    let from = (at - base) as usize;
    if body.len() < from {
        return None;
    }
    let to = cr_from(body, from)?;
    let form = line_form(&body[from..to], at, volume, line);
    Some(seen(form, base + to as u32, base + body.len() as u32))
}
