// ELEMENT: the layers of a volume.
ghost use Rattle.std.specs.Prelude.{◌≡◌, false, [], ◌∷◌, ◌+◌, ◌≤◌, ◌<◌, length, get_or};
ghost use Rattle.rules.specs.Lines.{form_in};
ghost use Rattle.rules.specs.RangeClass.{digits};
ghost use Rattle.rules.specs.Rows.{act};
ghost use Rattle.tables.specs.Tables.{table_of};
ghost use Rattle.entries.specs.Names.{known_in};
ghost use Rattle.account.specs.ElementLines.{LayerOpens, tallied, ElementCloses, ElementLine};
ghost use Rattle.tables.specs.Numbering.{table_element};
ghost use Rattle.account.specs.Numbering.{tally_elements_here, tally_total, tally_length};

use account::{
    BLOCK_FIGURES, BLOCK_TOP, Now, Step, TALLY_ELEMENTS_HERE, TALLY_HERE, TALLY_TOTAL, TURN_EOF,
};
use entries::Next;
use entries::acts::act;
use groundwork::blocks::{at_block, no_digits};
use rules::{LineForm, Rule};
use tables::TABLE_ELEMENT;

// "14: layer used twice"
fn open_layer(was: Now, layer: u32, used: &mut [bool], used_all: &mut [bool]) -> Step
    requires { (layer < 64) × (length used.old ≡ 64) × (length used_all.old ≡ 64) }
    ensures { LayerOpens was layer used.old used.new used_all.old used_all.new result }
{
    let i = layer as usize;
    if used[i] {
        return Step::Stop(Rule::Layer as u8);
    }
    used[i] = true;
    used_all[i] = true;
    Step::Go(Now {
        block: BLOCK_FIGURES,
        part: 0,
        layered: true,
        owner: layer,
        records: was.records,
        figures: 0,
        points: 0,
    })
}

// "17: this_ele at ELEMENT's close"
fn close_element(was: Now, tally: &mut [u32]) -> Step
    requires { (length tally.old ≡ tally_length) × (get_or tally.old tally_total 0 + get_or tally.old tally_elements_here 0 ≤ 4294967295) }
    ensures { ElementCloses was tally.old tally.new result }
{
    if tally[TALLY_HERE] != tally[TALLY_ELEMENTS_HERE] {
        return Step::Stop(Rule::Count as u8);
    }
    tally[TALLY_TOTAL] += tally[TALLY_ELEMENTS_HERE];
    Step::Go(at_block(was, BLOCK_TOP, TURN_EOF))
}

// A line in ELEMENT.
pub fn on_elements(
    s: &[u8],
    symbols: &[u32],
    layers: &[u32],
    was: Now,
    form: LineForm,
    tally: &mut [u32],
    used: &mut [bool],
    used_all: &mut [bool],
) -> Step
    requires { (length s.now ≤ 61440) × (length symbols.now ≤ 65536) × (length layers.now ≤ 64) × (length tally.old ≡ tally_length) × (get_or tally.old tally_total 0 + get_or tally.old tally_elements_here 0 ≤ 4294967295) × (length used.old ≡ 64) × (length used_all.old ≡ 64) }
    ensures { ElementLine (act (known_in s.now symbols.now layers.now) (table_of table_element) (digits 0 0) (false ∷ []) (form_in s.now form)) was tally.old tally.new used.old used.new used_all.old used_all.new result }
{
    let full = [false];
    let mut layer = [0i64; 1];
    let next = act(
        TABLE_ELEMENT,
        s,
        symbols,
        layers,
        no_digits(),
        &full,
        form,
        0,
        &mut layer,
    );
    match next {
        Next::Stay => Step::Go(was),
        Next::Entry(_) => Step::Stop(Rule::Form as u8),
        Next::Begin(_) => open_layer(was, layer[0] as u32, used, used_all),
        Next::Shut => close_element(was, tally),
        Next::Refuse(n) => Step::Stop(n),
    }
}

// A closed layer's figures are counted.
pub fn count_layer(was: Now, tally: &mut [u32])
    requires { (length tally.old ≡ tally_length) × (get_or tally.old tally_elements_here 0 + was.figures ≤ 4294967295) }
    ensures { tally.new ≡ tallied tally.old was.figures }
{
    tally[TALLY_ELEMENTS_HERE] += was.figures;
}
