// What a line with a key is, and the form that its key asks for.
ghost use Rattle.std.specs.Prelude.{◌≡◌};
ghost use Rattle.rules.specs.Lines.{equals, bytes_at};
ghost use Rattle.rules.specs.Values.{is_free};
ghost use Rattle.rules.specs.Rows.{is_either, fits, inner_of};
ghost use Rattle.tables.specs.Rows.{kind_of};
ghost use Rattle.entries.specs.Shapes.{key_of, rest_of, rest_in, shape_in, shape_by, sort_of};

use crate::names::part;
use crate::{Rest, SORT_CONTENT, SORT_FORMLESS, SORT_NO_CONTENT, SORT_OPENER, SORT_OPENING, Shape};
use leaves::bytes::spells;
use rules::{LineForm, Span};
use tables::{HOLDS_BLOCK, HOLDS_EITHER, HOLDS_HEADED, HOLDS_NOTHING, HOLDS_TEXT, Row};

// A line's key; nothing where it has none.
pub fn key_of(form: LineForm) -> Span
    ensures { result ≡ key_of form }
{
    match form {
        LineForm::Opens(o) => o.key,
        LineForm::Equals(q) => q.key,
        _ => Span { at: 0, len: 0 },
    }
}

// What stands behind a line's key.
pub fn rest_of(form: LineForm) -> Rest
    ensures { result ≡ rest_of form }
{
    match form {
        LineForm::Equals(q) => Rest::Equals(q.rest),
        _ => Rest::Brace,
    }
}

// Content that opens a block stands without the `:{`.
fn content_shape(s: &[u8], free: bool, rest: Span) -> Shape
    ensures { shape_in s.now result ≡ shape_by free (equals rest.at (bytes_at s.now rest)) }
{
    let c = part(s, rest);
    if c.is_empty() {
        return Shape::NoContent;
    }
    if free || !c.ends_with(b":{") {
        return Shape::Content(rest);
    }
    if c.len() == 2 {
        return Shape::Formless;
    }
    Shape::Opening(Span {
        at: rest.at,
        len: (c.len() - 2) as u32,
    })
}

// With free text behind the key, or without.
pub fn shape_for(s: &[u8], free: bool, rest: Rest) -> Shape
    ensures { shape_in s.now result ≡ shape_by free (rest_in s.now rest) }
{
    match rest {
        Rest::Brace => Shape::Opener,
        Rest::Equals(p) => content_shape(s, free, p),
    }
}

// Which of the five a shape is.
pub fn sort_of(shape: Shape) -> u8
    ensures { result ≡ sort_of shape }
{
    match shape {
        Shape::Opener => SORT_OPENER,
        Shape::NoContent => SORT_NO_CONTENT,
        Shape::Content(_) => SORT_CONTENT,
        Shape::Opening(_) => SORT_OPENING,
        Shape::Formless => SORT_FORMLESS,
    }
}

// `=000` alone, or 001 opening.
fn is_either(s: &[u8], shape: Shape) -> bool
    ensures { result ≡ is_either (shape_in s.now shape) }
{
    match shape {
        Shape::Content(p) => !spells(part(s, p), b"001"),
        Shape::Opening(p) => !spells(part(s, p), b"000"),
        _ => false,
    }
}

// The form that a row asks for.
pub(crate) fn fits(row: Row, s: &[u8], shape: Shape) -> bool
    ensures { result ≡ fits (kind_of row) row.may (shape_in s.now shape) }
{
    match row.kind {
        HOLDS_NOTHING => matches!(shape, Shape::NoContent),
        HOLDS_BLOCK => matches!(shape, Shape::Opener),
        HOLDS_HEADED => matches!(shape, Shape::Opening(_)),
        HOLDS_EITHER => is_either(s, shape),
        _ => match shape {
            Shape::Content(_) => true,
            Shape::NoContent => row.may,
            _ => false,
        },
    }
}

pub(crate) fn is_free(row: Row) -> bool
    ensures { result ≡ is_free (kind_of row) }
{
    row.kind == HOLDS_TEXT
}

// The number of the inner block that a row opens.
pub(crate) fn inner_of(row: Row) -> u8
    ensures { result ≡ inner_of (kind_of row) }
{
    match row.kind {
        HOLDS_BLOCK | HOLDS_HEADED | HOLDS_EITHER => row.inner,
        _ => 0,
    }
}
