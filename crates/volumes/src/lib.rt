// An accepted set written in the fixed form, "no comments, blanks or empty lines": its volumes, each behind its head.
#![tactic(auto)]

ghost use Rattle.std.specs.Prelude.{◌≡◌, cond, eqb, ◌++◌, ◌≤◌, length, drop};
ghost use Rattle.prints.specs.Printing.{Within};
ghost use Rattle.pens.specs.Texts.{Safe};
ghost use Rattle.pens.specs.Keys.{EofLine};
ghost use Rattle.pens.specs.KeyWriting.{Kept};
ghost use Rattle.pens.specs.Drawing.{DrawPromise};
ghost use Rattle.volumes.specs.Volumes.{BodyPromise, head_bytes, VolumePromise, SetPromise};
ghost use Rattle.account.specs.Numbering.{block_wire, most_rows};

use account::{BLOCK_TOP, BLOCK_WIRE, MOST_ROWS};
use entries::Rest;
use entries::names::part;
use leaves::NoRoom;
use leaves::write::{copy, put};
use lines::forms::look;
use lines::spool::{volume_name, volumes};
use pens::Pen;
use pens::closing::on_close;
use pens::keys::on_key;
use pens::places::at_block;
use prints::rows::put_plain;
use rules::{LineForm, Span};

// "The last line of the last volume is `EOF`"
fn on_eof(pen: Pen, out: &mut [u8]) -> Result<Pen, NoRoom>
    requires { Safe pen out.old }
    ensures { Kept out.old out.new result × EofLine pen out.old out.new result }
{
    let n = put_plain(b"EOF", &mut out[pen.at..])?;
    Ok(at_block(pen, n, BLOCK_TOP, 0))
}

// What one line writes.
fn on_line(
    s: &[u8],
    body: &[u8],
    start: u32,
    from: u32,
    first: bool,
    form: LineForm,
    pen: Pen,
    notes: &mut [u32],
    out: &mut [u8],
) -> Result<Pen, NoRoom>
    requires { Safe pen out.old × (length notes.old ≡ most_rows) }
    ensures { Kept out.old out.new result × (length notes.new ≡ most_rows) × DrawPromise s.now body.now start from first form pen notes.old notes.new out.old out.new result }
{
    match form {
        LineForm::Ignored | LineForm::Refused(_) => Ok(pen),
        LineForm::Close => on_close(s, body, start, from, first, pen, notes, out),
        LineForm::Eof => on_eof(pen, out),
        LineForm::Opens(o) => on_key(s, first, o.key, Rest::Brace, pen, notes, out),
        LineForm::Equals(q) => on_key(s, first, q.key, Rest::Equals(q.rest), pen, notes, out),
    }
}

// The place of the line behind the opener of the wire that is open behind a line; where none was open before it, that of the next line.
fn wire_from(pen: Pen, from: u32, next: u32) -> u32
    ensures { result ≡ cond (eqb pen.block block_wire) from next }
{
    if pen.block == BLOCK_WIRE { from } else { next }
}

// The lines of a volume, which is the part `body` of the spool from `start` on, and the byte 1A behind them.
fn put_body(
    s: &[u8],
    body: &[u8],
    start: u32,
    first: bool,
    notes: &mut [u32],
    out: &mut [u8],
) -> Result<usize, NoRoom>
    requires { length notes.old ≡ most_rows }
    ensures { Within out.old out.new result × (length notes.new ≡ most_rows) × BodyPromise s.now body.now start first out.old out.new result }
{
    let mut pen = Pen {
        block: BLOCK_TOP,
        part: 0,
        layered: false,
        start: 0,
        at: 0,
    };
    let mut at = start;
    let mut from = start;
    while let Some(seen) = look(body, start, at, 1, 1) {
        let began = wire_from(pen, from, seen.next);
        pen = on_line(s, body, start, from, first, seen.form, pen, notes, out)?;
        at = seen.next;
        from = began;
        if seen.last {
            break;
        }
    }
    let n = put(&[26u8], &mut out[pen.at..])?;
    Ok(pen.at + n)
}

// "mark 56 50 hex; 8 name bytes (1 to 8 of A-Z, 0-9, then spaces); length as 2 bytes, high first"
fn put_head(name: &[u8], size: usize, out: &mut [u8])
    requires { (length name.now ≤ 8) × (12 ≤ length out.old) }
    ensures { out.new ≡ head_bytes name.now size ++ drop 12 out.old }
{
    copy(b"VP        ", &mut out[..10]);
    copy(name, &mut out[2..2 + name.len()]);
    out[10] = (size / 256 % 256) as u8;
    out[11] = (size % 256) as u8;
}

// A volume, behind its head.
fn put_volume(
    s: &[u8],
    body: &[u8],
    start: u32,
    first: bool,
    notes: &mut [u32],
    out: &mut [u8],
) -> Result<usize, NoRoom>
    requires { length notes.old ≡ most_rows }
    ensures { Within out.old out.new result × (length notes.new ≡ most_rows) × VolumePromise s.now body.now start first out.old out.new result }
{
    if out.len() < 12 {
        return Err(NoRoom);
    }
    let n = put_body(s, body, start, first, notes, &mut out[12..])?;
    put_head(volume_name(s, start), n, out);
    Ok(n + 12)
}

// An accepted spool's fixed form at the front of the output, where it fits.
pub fn put_set(s: &[u8], out: &mut [u8]) -> Result<usize, NoRoom>
    ensures { Within out.old out.new result × SetPromise s.now out.old out.new result }
{
    let l = volumes(s);
    let count = l.count as usize;
    let mut notes = [0u32; MOST_ROWS];
    let mut at = 0;
    for i in 0..count {
        let start = l.places[i];
        let body = part(
            s,
            Span {
                at: start,
                len: l.lengths[i],
            },
        );
        at += put_volume(s, body, start, i == 0, &mut notes, &mut out[at..])?;
    }
    Ok(at)
}
