// The content of a line, by what its row holds.
ghost use Rattle.std.specs.Prelude.{◌≡◌, ◌&&◌, map, leb, ltb};
ghost use Rattle.rules.specs.Values.{capital, find_sheet, sheets, read_ratio};
ghost use Rattle.leaves.specs.Writing.{Puts};
ghost use Rattle.prints.specs.Printing.{Lays};
ghost use Rattle.prints.specs.Texts.{sheet_text, ratio_text, forms_of, content_text};
ghost use Rattle.tables.specs.Numbering.{holds_values, holds_either};

use crate::pieces::{piece, pieces};
use leaves::NoRoom;
use leaves::bytes::capital;
use leaves::sheets::{ratio, sheet};
use leaves::write::{put, put_ratio, put_sheet};
use tables::{
    ARC_FORMS, HOLDS_CIRCLE, HOLDS_EITHER, HOLDS_HEADED, HOLDS_RATIO, HOLDS_SERIALS, HOLDS_SHEET,
    HOLDS_VALUES, HOLDS_VOLUME_NAME, HOLDS_WIRE_SERIAL, PART_COUNT, Row,
};

// The name of the next volume, in capitals, byte by byte.
fn capitals(c: &[u8], out: &mut [u8]) -> Result<usize, NoRoom>
    ensures { Lays (map capital c.now) out.old out.new result }
{
    if out.len() < c.len() {
        return Err(NoRoom);
    }
    for (i, b) in c.iter().enumerate() {
        out[i] = capital(*b);
    }
    Ok(c.len())
}

fn size(c: &[u8], out: &mut [u8]) -> Result<usize, NoRoom>
    ensures { Puts (sheet_text c.now (find_sheet c.now sheets)) out.old out.new result }
{
    match sheet(c) {
        Some(z) => put_sheet(u64::from(z.multiplier), u64::from(z.number), out),
        None => put(c, out),
    }
}

fn scale(c: &[u8], out: &mut [u8]) -> Result<usize, NoRoom>
    ensures { Puts (ratio_text c.now (read_ratio c.now)) out.old out.new result }
{
    match ratio(c) {
        Ok(z) => put_ratio(u64::from(z.p), u64::from(z.q), out),
        Err(_) => put(c, out),
    }
}

// A kind of content that stands as it was written: texts, words, and a range that may open a block.
fn stands(kind: u8) -> bool
    ensures { result ≡ (ltb holds_values kind && leb kind holds_either) }
{
    HOLDS_VALUES < kind && kind <= HOLDS_EITHER
}

// The forms of a row's values; a whole circle's six are written as the first six of an arc's are.
fn forms_of(row: Row) -> u64
    ensures { result ≡ forms_of row }
{
    if row.kind == HOLDS_CIRCLE {
        ARC_FORMS
    } else {
        row.parts
    }
}

// A content that is not empty.
#[tactic(auto, using(crate::proofs::Going::whole), unfolding(crate::specs::Texts::content_text))]
pub(crate) fn content(row: Row, c: &[u8], out: &mut [u8]) -> Result<usize, NoRoom>
    ensures { Lays (content_text row c.now) out.old out.new result }
{
    match row.kind {
        HOLDS_VOLUME_NAME => capitals(c, out),
        HOLDS_SHEET => size(c, out),
        HOLDS_RATIO => scale(c, out),
        // of a placed symbol or a wire
        HOLDS_SERIALS | HOLDS_WIRE_SERIAL => pieces(PART_COUNT, true, c, out),
        HOLDS_HEADED => piece(row.parts, c, out),
        kind if stands(kind) => put(c, out),
        _ => pieces(forms_of(row), false, c, out),
    }
}
