// DRAWING_FORMAT, and the names of layers in it.
ghost use Rattle.std.specs.Prelude.{◌≡◌, true, [], ◌∷◌, ◌≤◌, ◌<◌, pos, length, drop};
ghost use Rattle.rules.specs.Lines.{form_in, free_shape_of, bytes_at};
ghost use Rattle.rules.specs.Numbers.{value};
ghost use Rattle.rules.specs.Values.{is_layer_id};
ghost use Rattle.rules.specs.Blocks.{most_layers};
ghost use Rattle.rules.specs.Machine.{layer_value};
ghost use Rattle.entries.specs.Names.{known_in};
ghost use Rattle.entries.specs.Shapes.{rest_in};
ghost use Rattle.account.specs.TopLines.{Answered, layers_of};
ghost use Rattle.account.specs.DrawingLines.{drawing_act, drawing_now, drawing_marks, drawing_put, name_of, layer_taken, layer_put, LayerIn, layer_got, LayerLine, NamesLine};
ghost use Rattle.account.specs.Numbering.{tally_length, most_rows};
ghost use Rattle.rules.specs.RecordTable.{width};

use account::{
    BLOCK_DRAWING, BLOCK_LAYER_NAMES, BLOCK_TOP, MOST_LAYERS, Now, PLACE_LETTER, ROWS_DRAWING,
    Step, TALLY_LAYERS, TURN_DEFINES, Where,
};
use entries::acts::act;
use entries::names::{index_of, part};
use entries::shapes::shape_for;
use entries::{Next, Rest, Shape};
use groundwork::blocks::{at_block, digits_of};
use groundwork::table::head;
use leaves::bytes::is_layer_id;
use leaves::numbers::fixed;
use leaves::texts::{fits, text_rule};
use rules::{KIND_LAYER, LineForm, Rule, Span};
use tables::TABLE_DRAWING;

// A line in DRAWING_FORMAT.
pub fn on_drawing(
    s: &[u8],
    symbols: &[u32],
    layers: &[u32],
    arc: u32,
    here: Now,
    form: LineForm,
    marks: &mut [bool],
    rec: &mut [i64],
) -> Step
    requires { (length s.now ≤ 61440) × (length symbols.now ≤ 65536) × (length layers.now ≤ 65536) × (length marks.old ≡ most_rows) × (length rec.old ≡ width) }
    ensures { Answered (drawing_now here (drawing_act (known_in s.now symbols.now layers.now) arc marks.old (form_in s.now form))) ((marks.new ≡ drawing_marks marks.old (drawing_act (known_in s.now symbols.now layers.now) arc marks.old (form_in s.now form))) × (rec.new ≡ drawing_put rec.old (drawing_act (known_in s.now symbols.now layers.now) arc marks.old (form_in s.now form)))) result }
{
    let next = act(
        TABLE_DRAWING,
        s,
        symbols,
        layers,
        digits_of(arc),
        &marks[..ROWS_DRAWING],
        form,
        0,
        rec,
    );
    match next {
        Next::Stay => Step::Go(here),
        Next::Entry(row) => {
            marks[row as usize] = true;
            Step::Go(here)
        }
        Next::Begin(inner) => {
            marks[inner.row as usize] = true;
            Step::Go(at_block(here, BLOCK_LAYER_NAMES, 0))
        }
        Next::Shut => Step::Go(at_block(here, BLOCK_TOP, TURN_DEFINES)),
        Next::Refuse(k) => Step::Stop(k),
    }
}

// A layer's name, by its number in TEXT_LIMITS.
const LAYER_TEXT: u8 = 12;

// "name 0-20 bytes"
fn layer_name(s: &[u8], rest: Rest) -> Result<Span, u8>
    ensures { result ≡ name_of (layer_value [] (free_shape_of (rest_in s.now rest))) }
{
    match shape_for(s, true, rest) {
        Shape::NoContent => Ok(Span { at: 0, len: 0 }),
        Shape::Content(c) => {
            let bytes = part(s, c);
            let rule = text_rule(LAYER_TEXT);
            if !fits(bytes, rule.most, rule.set) {
                return Err(Rule::Value as u8);
            }
            Ok(Span {
                at: c.at,
                len: bytes.len() as u32,
            })
        }
        Shape::Opener | Shape::Opening(_) | Shape::Formless => Err(Rule::Form as u8),
    }
}

// The three digits of a layer's id.
fn layer_digits(id: &[u8]) -> u64
    requires { is_layer_id id.now ≡ true }
    ensures { result ≡ value (drop 2 id.now) }
{
    fixed(&id[2..], 3).unwrap_or(0)
}

fn layer_taken(here: Now) -> Now
    requires { here.records < 18446744073709551615 }
    ensures { result ≡ layer_taken here }
{
    Now {
        records: here.records + 1,
        ..here
    }
}

// In a layer's record behind its letter: its number, and its name's place and length.
const PLACE_NUMBER: usize = 6;

const PLACE_LAYER_NAME: usize = 7;

const PLACE_LAYER_NAME_LENGTH: usize = 8;

// "5 layer: letter's byte, number, name"
fn put_layer(number: u32, id: &[u8], name: Span, at: Where, rec: &mut [i64])
    requires { (is_layer_id id.now ≡ true) × (length rec.old ≡ width) }
    ensures { rec.new ≡ layer_put number at id.now (pos name.at ∷ pos name.len ∷ []) rec.old }
{
    head(rec, 0, KIND_LAYER, number, at.volume, at.line);
    rec[PLACE_LETTER] = i64::from(id[0]);
    rec[PLACE_NUMBER] = layer_digits(id) as i64;
    rec[PLACE_LAYER_NAME] = i64::from(name.at);
    rec[PLACE_LAYER_NAME_LENGTH] = i64::from(name.len);
}

// The length of a layer's id, five bytes, as it stands in a name's number: 65,536 times, above the place.
const LAYER_ID_LENGTH: u32 = 327680;

fn take_layer(
    s: &[u8],
    tally: &mut [u32],
    layers: &mut [u32],
    here: Now,
    key: Span,
    name: Span,
    at: Where,
    rec: &mut [i64],
) -> Now
    requires { (length s.now ≤ 61440) × (length tally.old ≡ tally_length) × (length layers.old ≡ most_layers) × (layers_of tally.old < most_layers) × (is_layer_id (bytes_at s.now key) ≡ true) × (length rec.old ≡ width) × (here.records < 18446744073709551615) }
    ensures { (result ≡ layer_taken here) × LayerIn s.now at (bytes_at s.now key) (pos name.at ∷ pos name.len ∷ []) tally.old tally.new layers.old layers.new rec.old rec.new }
{
    let count = tally[TALLY_LAYERS];
    put_layer(count, part(s, key), name, at, rec);
    layers[count as usize] = key.at + LAYER_ID_LENGTH;
    tally[TALLY_LAYERS] = count + 1;
    layer_taken(here)
}

// "A misspelt id is 6"; one line too many is 11, a layer declared twice 14
fn layer_line(
    s: &[u8],
    tally: &mut [u32],
    layers: &mut [u32],
    here: Now,
    key: Span,
    rest: Rest,
    at: Where,
    rec: &mut [i64],
) -> Step
    requires { (length s.now ≤ 61440) × (length tally.old ≡ tally_length) × (length layers.old ≡ most_layers) × (layers_of tally.old ≤ most_layers) × (length rec.old ≡ width) × (here.records < 18446744073709551615) }
    ensures { LayerLine s.now here at (bytes_at s.now key) tally.old tally.new layers.old layers.new rec.old rec.new (layer_got s.now tally.old layers.old (bytes_at s.now key) (rest_in s.now rest)) result }
{
    if !is_layer_id(part(s, key)) {
        return Step::Stop(Rule::Key as u8);
    }
    // (no `?`: a line is answered by account's Step)
    let name = match layer_name(s, rest) {
        Ok(name) => name,
        Err(n) => return Step::Stop(n),
    };
    let count = tally[TALLY_LAYERS] as usize;
    if MOST_LAYERS <= count {
        return Step::Stop(Rule::Value as u8);
    }
    if index_of(s, &layers[..count], part(s, key)).is_some() {
        return Step::Stop(Rule::Layer as u8);
    }
    Step::Go(take_layer(s, tally, layers, here, key, name, at, rec))
}

// A line in `layer_name`.
pub fn on_layer_names(
    s: &[u8],
    tally: &mut [u32],
    layers: &mut [u32],
    here: Now,
    form: LineForm,
    at: Where,
    rec: &mut [i64],
) -> Step
    requires { (length s.now ≤ 61440) × (length tally.old ≡ tally_length) × (length layers.old ≡ most_layers) × (layers_of tally.old ≤ most_layers) × (length rec.old ≡ width) × (here.records < 18446744073709551615) }
    ensures { NamesLine s.now here at (form_in s.now form) tally.old tally.new layers.old layers.new rec.old rec.new result }
{
    match form {
        LineForm::Ignored => Step::Go(here),
        LineForm::Close => Step::Go(at_block(here, BLOCK_DRAWING, 0)),
        LineForm::Eof => Step::Stop(Rule::Order as u8),
        LineForm::Opens(o) => layer_line(s, tally, layers, here, o.key, Rest::Brace, at, rec),
        LineForm::Equals(q) => {
            layer_line(s, tally, layers, here, q.key, Rest::Equals(q.rest), at, rec)
        }
        LineForm::Refused(r) => Step::Stop(r.number),
    }
}
