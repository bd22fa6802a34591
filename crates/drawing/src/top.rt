// The top level: the blocks of a volume in their order, and EOF.
ghost use Rattle.std.specs.Prelude.{◌≡◌, ◌+◌, ◌<◌, ◌≤◌, length};
ghost use Rattle.rules.specs.Lines.{form_in};
ghost use Rattle.entries.specs.Names.{known_in};
ghost use Rattle.account.specs.Account.{head_at};
ghost use Rattle.account.specs.TopLines.{step_of, layers_of, eof_now, top_lent, records_taken, header_begun, top_act, Answered, file_takes, unmarked, block_now, opened_lent, key_now, key_lent, top_now, top_lent_by};
ghost use Rattle.account.specs.Numbering.{block_file, block_drawing, tally_length, header_length};
ghost use Rattle.rules.specs.RecordTable.{width, kind_drawing};

use account::{
    BLOCK_DEFINES, BLOCK_DRAWING, BLOCK_ELEMENTS, BLOCK_ENDED, BLOCK_FILE, Now, ROWS_TOP, Step,
    TALLY_ALL, TALLY_LAYERS, TALLY_TOTAL, TURN_DEFINES, TURN_DRAWING, TURN_EOF, TURN_FILE, Where,
};
use entries::Next;
use entries::acts::act;
use groundwork::blocks::{at_block, no_digits, unmark};
use groundwork::serials::all_marked;
use groundwork::table::{clear, head};
use rules::{KIND_DRAWING, KIND_HEADER, KIND_VOLUME, LineForm, Rule, WIDTH};
use tables::TABLE_TOP;

// EOF: 9 where it is misplaced, then 14 for a layer that is not used, then 17 for all_ele.
fn at_eof(here: Now, at: Where, tally: &[u32], used_all: &[bool]) -> Step
    requires { (length tally.now ≡ tally_length) × (layers_of tally.now ≤ length used_all.now) }
    ensures { result ≡ step_of (eof_now here at tally.now used_all.now) }
{
    if here.part != TURN_EOF || !at.ends {
        return Step::Stop(Rule::Order as u8);
    }
    let count = tally[TALLY_LAYERS] as usize;
    if !all_marked(&used_all[..count]) {
        return Step::Stop(Rule::Layer as u8);
    }
    if tally[TALLY_ALL] != tally[TALLY_TOTAL] {
        return Step::Stop(Rule::Count as u8);
    }
    Step::Go(at_block(here, BLOCK_ENDED, 0))
}

// The block takes so many records.
fn records_taken(here: Now, block: u8, more: usize) -> Now
    requires { here.records + more ≤ 18446744073709551615 }
    ensures { result ≡ records_taken here block more }
{
    Now {
        block,
        part: 0,
        layered: false,
        owner: 0,
        records: here.records + more,
        figures: 0,
        points: 0,
    }
}

// The header's record and the volume's are begun.
fn begin_header(first: bool, at: Where, header: &mut [i64])
    requires { length header.old ≡ header_length }
    ensures { header.new ≡ header_begun first at header.old }
{
    clear(header);
    if first {
        head(header, 0, KIND_HEADER, 0, at.volume, at.line);
        head(header, WIDTH, KIND_VOLUME, 0, at.volume, at.line);
    } else {
        head(header, 0, KIND_VOLUME, 0, at.volume, at.line);
    }
}

// FILE_FORMAT takes two records in the first volume, the header's and the volume's, and one in others.
fn open_file(here: Now, first: bool, at: Where, marks: &mut [bool], header: &mut [i64]) -> Now
    requires { (length header.old ≡ header_length) × (here.records + 2 ≤ 18446744073709551615) }
    ensures { (result ≡ records_taken here block_file (file_takes first)) × (marks.new ≡ unmarked marks.old) × (header.new ≡ header_begun first at header.old) }
{
    unmark(marks);
    begin_header(first, at, header);
    records_taken(here, BLOCK_FILE, if first { 2 } else { 1 })
}

fn open_drawing(here: Now, at: Where, marks: &mut [bool], rec: &mut [i64]) -> Now
    requires { (length rec.old ≡ width) × (here.records < 18446744073709551615) }
    ensures { (result ≡ records_taken here block_drawing 1) × (marks.new ≡ unmarked marks.old) × (rec.new ≡ head_at 0 kind_drawing 0 at rec.old) }
{
    head(rec, 0, KIND_DRAWING, 0, at.volume, at.line);
    unmark(marks);
    records_taken(here, BLOCK_DRAWING, 1)
}

// "FILE_FORMAT, DRAWING_FORMAT, SYMBOL_DEFINE, ELEMENT, each once in this order"
fn open_block(
    here: Now,
    first: bool,
    at: Where,
    block: u8,
    marks: &mut [bool],
    used: &mut [bool],
    header: &mut [i64],
    rec: &mut [i64],
) -> Step
    requires { (length header.old ≡ header_length) × (length rec.old ≡ width) × (here.records + 2 ≤ 18446744073709551615) }
    ensures { Answered (block_now first here block) ((top_lent marks.new used.new header.new rec.new) ≡ opened_lent first at block (top_lent marks.old used.old header.old rec.old)) result }
{
    if block != here.part {
        return Step::Stop(Rule::Order as u8);
    }
    Step::Go(match block {
        TURN_FILE => open_file(here, first, at, marks, header),
        TURN_DRAWING => open_drawing(here, at, marks, rec),
        TURN_DEFINES => at_block(here, BLOCK_DEFINES, 0),
        _ => {
            unmark(used);
            at_block(here, BLOCK_ELEMENTS, 0)
        }
    })
}

// A line outside all blocks.
pub fn on_top(
    s: &[u8],
    symbols: &[u32],
    layers: &[u32],
    first: bool,
    here: Now,
    form: LineForm,
    at: Where,
    tally: &[u32],
    marks: &mut [bool],
    used: &mut [bool],
    used_all: &[bool],
    header: &mut [i64],
    rec: &mut [i64],
) -> Step
    requires { (length s.now ≤ 61440) × (length symbols.now ≤ 65536) × (length layers.now ≤ 65536) × (length tally.now ≡ tally_length) × (layers_of tally.now ≤ length used_all.now) × (length header.old ≡ header_length) × (length rec.old ≡ width) × (here.records + 2 ≤ 18446744073709551615) }
    ensures { Answered (top_now (known_in s.now symbols.now layers.now) first here at tally.now used_all.now (form_in s.now form)) ((top_lent marks.new used.new header.new rec.new) ≡ top_lent_by (known_in s.now symbols.now layers.now) first at (top_lent marks.old used.old header.old rec.old) (form_in s.now form)) result }
{
    match form {
        LineForm::Ignored => Step::Go(here),
        LineForm::Close => Step::Stop(Rule::Order as u8),
        LineForm::Eof => at_eof(here, at, tally, used_all),
        LineForm::Opens(_) | LineForm::Equals(_) => top_key(
            s, symbols, layers, first, here, form, at, marks, used, header, rec,
        ),
        LineForm::Refused(r) => Step::Stop(r.number),
    }
}

fn top_key(
    s: &[u8],
    symbols: &[u32],
    layers: &[u32],
    first: bool,
    here: Now,
    form: LineForm,
    at: Where,
    marks: &mut [bool],
    used: &mut [bool],
    header: &mut [i64],
    rec: &mut [i64],
) -> Step
    requires { (length s.now ≤ 61440) × (length symbols.now ≤ 65536) × (length layers.now ≤ 65536) × (length header.old ≡ header_length) × (length rec.old ≡ width) × (here.records + 2 ≤ 18446744073709551615) }
    ensures { Answered (key_now first here (top_act (known_in s.now symbols.now layers.now) (form_in s.now form))) ((top_lent marks.new used.new header.new rec.new) ≡ key_lent first at (top_lent marks.old used.old header.old rec.old) (top_act (known_in s.now symbols.now layers.now) (form_in s.now form))) result }
{
    let full = [false; ROWS_TOP];
    let mut nothing = [0i64; 1];
    let next = act(
        TABLE_TOP,
        s,
        symbols,
        layers,
        no_digits(),
        &full,
        form,
        0,
        &mut nothing,
    );
    match next {
        Next::Stay => Step::Go(here),
        Next::Entry(_) => Step::Stop(Rule::Form as u8),
        Next::Begin(inner) => open_block(here, first, at, inner.row, marks, used, header, rec),
        Next::Shut => Step::Stop(Rule::Order as u8),
        Next::Refuse(n) => Step::Stop(n),
    }
}
