// A figure's text.
ghost use Rattle.std.specs.Prelude.{◌≡◌, ◌≤◌, ◌<◌, length};
ghost use Rattle.rules.specs.Lines.{form_in};
ghost use Rattle.rules.specs.RangeClass.{digits};
ghost use Rattle.rules.specs.Rows.{act};
ghost use Rattle.tables.specs.Tables.{table_of};
ghost use Rattle.entries.specs.Names.{known_in};
ghost use Rattle.account.specs.TextLines.{text_table_of, TextLine};
ghost use Rattle.rules.specs.RecordTable.{width};

use account::{Now, Step};
use entries::Next;
use entries::acts::act;
use groundwork::blocks::{figure_done, no_digits};
use rules::{LineForm, Rule};
use tables::{TABLE_LAYER_TEXT, TABLE_SYMBOL_TEXT};

// The table of a text's rows, in a layer or in a symbol.
fn text_table(in_layer: bool) -> u8
    ensures { result ≡ text_table_of in_layer }
{
    if in_layer {
        TABLE_LAYER_TEXT
    } else {
        TABLE_SYMBOL_TEXT
    }
}

// A line in a text: its record is lent.
pub fn on_text(
    s: &[u8],
    symbols: &[u32],
    layers: &[u32],
    here: Now,
    form: LineForm,
    marks: &mut [bool],
    rec: &mut [i64],
) -> Step
    requires { (length s.now ≤ 61440) × (length symbols.now ≤ 65536) × (length layers.now ≤ 65536) × (here.figures < 4294967295) × (length marks.old ≡ 2) × (length rec.old ≡ width) }
    ensures { TextLine (act (known_in s.now symbols.now layers.now) (table_of (text_table_of here.layered)) (digits 0 0) marks.old (form_in s.now form)) here marks.old marks.new rec.old rec.new result }
{
    let next = act(
        text_table(here.layered),
        s,
        symbols,
        layers,
        no_digits(),
        marks,
        form,
        0,
        rec,
    );
    match next {
        Next::Stay => Step::Go(here),
        Next::Entry(row) => {
            marks[row as usize] = true;
            Step::Go(here)
        }
        Next::Begin(_) => Step::Stop(Rule::Form as u8),
        Next::Shut => Step::Go(figure_done(here)),
        Next::Refuse(n) => Step::Stop(n),
    }
}
