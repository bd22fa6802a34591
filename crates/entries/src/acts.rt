// What one line does in a block of a table.
ghost use Rattle.std.specs.Prelude.{◌≡◌, true, false, cond, ◌<◌, ◌≤◌, length, get_or};
ghost use Rattle.rules.specs.Base.{all};
ghost use Rattle.rules.specs.Lines.{bytes_at, form_in};
ghost use Rattle.rules.specs.Rows.{find, present, complete, act_unknown, act_found, act, shut, refuse};
ghost use Rattle.rules.specs.RecordTable.{rule_at};
ghost use Rattle.tables.specs.Tables.{table_of};
ghost use Rattle.entries.specs.Names.{known_in, known_of};
ghost use Rattle.entries.specs.Shapes.{rest_in};
ghost use Rattle.entries.specs.Acts.{roomy, next_of, Acts, wanted};

use crate::names::part;
use crate::required::required;
use crate::row_lines::{reaches, row_line};
use crate::shapes::{key_of, rest_of, shape_for};
use crate::{Known, Next, Rest, Shape};
use rules::{Digits, LineForm, Rule, Span};
use tables::lookup::row_of;

// A row that is asked for from these digits on must be there in a file of the range d.
fn wants(from: Option<Digits>, d: Digits) -> bool
    ensures { result ≡ wanted d from }
{
    match from {
        Some(least) => reaches(d, least),
        None => false,
    }
}

// All required rows are there.
pub fn complete(table: u8, d: Digits, full: &[bool]) -> bool
    requires { length full.now ≡ length (table_of table) }
    ensures { result ≡ complete d (table_of table) full.now }
{
    required(table)
        .iter()
        .zip(full)
        .all(|(from, had)| *had || !wants(*from, d))
}

fn close(table: u8, d: Digits, full: &[bool]) -> Next
    requires { length full.now ≡ length (table_of table) }
    ensures { result ≡ next_of (cond (complete d (table_of table) full.now) shut (refuse 8)) }
{
    if complete(table, d, full) {
        Next::Shut
    } else {
        Next::Refuse(Rule::Missing as u8)
    }
}

fn mark(full: &[bool], row: u8) -> bool
    ensures { result ≡ get_or full.now row false }
{
    matches!(full.get(row as usize), Some(true))
}

// A key that is not known here: 6, and 5 where the line has no form.
fn unknown(s: &[u8], rest: Rest) -> Next
    ensures { result ≡ next_of (act_unknown (rest_in s.now rest)) }
{
    match shape_for(s, false, rest) {
        Shape::Formless => Next::Refuse(Rule::Form as u8),
        _ => Next::Refuse(Rule::Key as u8),
    }
}

fn act_key(
    table: u8,
    known: &Known<'_>,
    d: Digits,
    full: &[bool],
    key: Span,
    rest: Rest,
    dump: usize,
    rec: &mut [i64],
) -> Next
    requires { all (roomy dump (length rec.old)) (table_of table) ≡ true }
    ensures { Acts (rule_at (table_of table)) dump rec.old (act_found (known_of known.now) d full.now (rest_in known.now.spool.now rest) (find (bytes_at known.now.spool.now key) (table_of table))) rec.new result }
{
    match row_of(table, part(known.spool, key)) {
        None => unknown(known.spool, rest),
        Some(row) => {
            let had = mark(full, row.number);
            row_line(row, known, d, had, rest, dump, rec)
        }
    }
}

// A line in a block of a table, in a file of the range d; `full` tells for each row whether it has had all it may have.
// Lines with a key go to one call, so that the compiler can put that function in line.
pub fn act(
    table: u8,
    s: &[u8],
    symbols: &[u32],
    layers: &[u32],
    d: Digits,
    full: &[bool],
    form: LineForm,
    dump: usize,
    rec: &mut [i64],
) -> Next
    requires { (length s.now ≤ 61440) × (length symbols.now ≤ 65536) × (length layers.now ≤ 65536) × (length full.now ≡ length (table_of table)) × (all (roomy dump (length rec.old)) (table_of table) ≡ true) }
    ensures { Acts (rule_at (table_of table)) dump rec.old (act (known_in s.now symbols.now layers.now) (table_of table) d full.now (form_in s.now form)) rec.new result }
{
    let known = Known {
        spool: s,
        symbols,
        layers,
    };
    match form {
        LineForm::Ignored => Next::Stay,
        LineForm::Close => close(table, d, full),
        LineForm::Eof => Next::Refuse(Rule::Order as u8),
        LineForm::Refused(r) => Next::Refuse(r.number),
        LineForm::Opens(_) | LineForm::Equals(_) => act_key(
            table,
            &known,
            d,
            full,
            key_of(form),
            rest_of(form),
            dump,
            rec,
        ),
    }
}
