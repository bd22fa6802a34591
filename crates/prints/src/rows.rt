// One line of the fixed form, from a line of the spool.
ghost use Rattle.std.specs.Prelude.{◌≡◌, ◌++◌};
ghost use Rattle.rules.specs.Lines.{bytes_at};
ghost use Rattle.entries.specs.Shapes.{rest_in, shape_in};
ghost use Rattle.prints.specs.Printing.{Prints, Within, Lays};
ghost use Rattle.prints.specs.Texts.{behind_text, line_end, rest_text};
ghost use Rattle.prints.specs.Reading.{PrintsRow, PrintsLayer};

use crate::contents::content;
use entries::names::part;
use entries::shapes::shape_for;
use entries::{Rest, Shape};
use keywords::put_key;
use leaves::NoRoom;
use leaves::write::put;
use rules::Span;
use tables::{HOLDS_TEXT, Row};

// The end of a line.
const LINE_END: &[u8] = b"\r\n";

// A text and the end of its line.
pub fn put_plain(line: &[u8], out: &mut [u8]) -> Result<usize, NoRoom>
    ensures { Within out.old out.new result × Prints (line.now ++ line_end) out.old out.new result }
{
    let n = put(line, out)?;
    Ok(n + put(LINE_END, &mut out[n..])?)
}

// What stands behind the key of a row, by its line's shape.
fn behind(row: Row, s: &[u8], shape: Shape, out: &mut [u8]) -> Result<usize, NoRoom>
    ensures { Lays (behind_text row (shape_in s.now shape)) out.old out.new result }
{
    match shape {
        Shape::Opener => put(b":{", out),
        Shape::NoContent | Shape::Formless => put(b"=", out),
        Shape::Content(p) => {
            let n = put(b"=", out)?;
            Ok(n + content(row, part(s, p), &mut out[n..])?)
        }
        Shape::Opening(p) => {
            let mut n = put(b"=", out)?;
            n += content(row, part(s, p), &mut out[n..])?;
            Ok(n + put(b":{", &mut out[n..])?)
        }
    }
}

// The line of a table's row, from what follows its key in the spool.
pub fn put_row(table: u8, row: Row, s: &[u8], rest: Rest, out: &mut [u8]) -> Result<usize, NoRoom>
    ensures { Within out.old out.new result × PrintsRow table row (rest_in s.now rest) out.old out.new result }
{
    let shape = shape_for(s, row.kind == HOLDS_TEXT, rest);
    let mut n = put_key(table, row.number, out)?;
    n += behind(row, s, shape, &mut out[n..])?;
    Ok(n + put(LINE_END, &mut out[n..])?)
}

// What a layer's key is followed by.
fn name_in(s: &[u8], rest: Rest) -> &[u8]
    ensures { result.now ≡ rest_text (rest_in s.now rest) }
{
    match rest {
        Rest::Equals(name) => part(s, name),
        Rest::Brace => b"",
    }
}

// A layer's id and its name.
pub fn put_named(s: &[u8], key: Span, rest: Rest, out: &mut [u8]) -> Result<usize, NoRoom>
    ensures { Within out.old out.new result × PrintsLayer (bytes_at s.now key) (rest_in s.now rest) out.old out.new result }
{
    let mut n = put(part(s, key), out)?;
    n += put(b"=", &mut out[n..])?;
    n += put(name_in(s, rest), &mut out[n..])?;
    Ok(n + put(LINE_END, &mut out[n..])?)
}
