// What one line does: a function for each block, and the way to it.
ghost use Rattle.std.specs.Prelude.{◌≡◌, true, ◌+◌, ◌≤◌, ◌<◌, eqb, length, get_or};
ghost use Rattle.account.specs.declared.Now.{Now};
ghost use Rattle.account.specs.declared.Step.TheVariants as S;
ghost use Rattle.account.specs.Records.{part_at};
ghost use Rattle.account.specs.SymbolLines.{is_named};
ghost use Rattle.account.specs.PlacedLines.{lent, LentReady};
ghost use Rattle.account.specs.WireLines.{WireReady};
ghost use Rattle.account.specs.TopLines.{top_lent};
ghost use Rattle.account.specs.FileLines.{FileReady};
ghost use Rattle.standing.specs.Standing.{desk};
ghost use Rattle.standing.specs.Reading.{tally_after, tally_named, symbols_named, LineReady, LinePromise};
ghost use Rattle.standing.specs.LineDone.{Named, NumbersReady, SymbolReady, OnTop, OnFile, OnDrawing, OnNames, OnDefines, OnSymbol, OnHide, OnElements, OnFigures, OnChain, OnText, OnPlaced, OnWire, HeadFits, HeadDone, SheetFits, SheetDone, FiguresFit, FiguresDone};
ghost use Rattle.account.specs.Numbering.{block_drawing, block_defines, block_symbol, block_elements, block_figures, tally_elements_here, tally_total, tally_symbols, tally_layers, tally_length, most_rows, header_length, scratch_length};
ghost use Rattle.rules.specs.RecordTable.{width};

use account::{
    BLOCK_CHAIN, BLOCK_DEFINES, BLOCK_DRAWING, BLOCK_ELEMENTS, BLOCK_FIGURES, BLOCK_LAYER_NAMES,
    BLOCK_PLACED, BLOCK_SYMBOL, BLOCK_TEXT, BLOCK_TOP, BLOCK_WIRE, LineAt, SCRATCH_LENGTH, Step,
    TALLY_ARC, TALLY_DEFINE_RANGE, TALLY_LAYERS, TALLY_SYMBOL_RANGE, TALLY_SYMBOLS,
    TALLY_WIRE_RANGE,
};
use drawing::drawing_format::{on_drawing, on_layer_names};
use drawing::file_format::on_file;
use drawing::symbol_define::{keep_name, on_defines, on_symbol};
use drawing::top::on_top;
use elements::element::{count_layer, on_elements};
use elements::figures::on_figures;
use elements::placed::on_placed;
use elements::points::{on_chain, on_hide};
use elements::texts::on_text;
use elements::wires::{begin_wire, on_wire};
use groundwork::serials::partners_met;
use rules::{Rule, WIDTH};

// The scratch's first record is the open drawing's or symbol's own, the second a figure's or one line's; it ends here.
const SECOND_END: usize = WIDTH + WIDTH;

// A layer that has closed: its figures are counted.
fn layer_counted(did: Step, tally: &mut [u32]) -> Step
    requires { (length tally.old ≡ tally_length) × ((n : Now) → did ≡ S.Go n → n.block ≡ block_elements → get_or tally.old tally_elements_here 0 + n.figures ≤ 4294967295) }
    ensures { (result ≡ did) × (tally.new ≡ tally_after tally.old did) }
{
    if let Step::Go(n) = did
        && n.block == BLOCK_ELEMENTS
    {
        count_layer(n, tally);
    }
    did
}

// A symbol that has closed: its name joins the others.
fn name_kept(did: Step, tally: &mut [u32], symbols: &mut [u32], rec: &[i64]) -> Step
    requires { (length tally.old ≡ tally_length) × (length symbols.old ≤ 65536) × (length rec.now ≡ width) × ((n : Now) → did ≡ S.Go n → n.block ≡ block_defines → (get_or tally.old tally_symbols 0 < length symbols.old) × (is_named rec.now ≡ true)) }
    ensures { (result ≡ did) × (tally.new ≡ tally_named tally.old did) × (symbols.new ≡ symbols_named tally.old rec.now symbols.old did) }
{
    if let Step::Go(n) = did
        && n.block == BLOCK_DEFINES
    {
        keep_name(tally, symbols, rec);
    }
    did
}

// What one line does, by the block that is open: one function for each block, which lends of the scratch what its lines write. Each is lent what
// its block uses: no struct of all that is lent, or each would have to promise that the other parts stay.
fn at_top(
    s: &[u8],
    x: LineAt,
    tally: &[u32],
    symbols: &[u32],
    layers: &[u32],
    serials: &[u64],
    used: &mut [bool],
    used_all: &[bool],
    marks: &mut [bool],
    header: &mut [i64],
    t: &mut [i64],
) -> Step
    requires { (length s.now ≤ 61440) × Named tally.now symbols.now layers.now × (get_or tally.now tally_layers 0 ≤ length used_all.now) × (length header.old ≡ header_length) × (length t.old ≡ scratch_length) × (x.here.records + 2 ≤ 18446744073709551615) × NumbersReady tally.now serials.now }
    ensures { OnTop s.now x.form x.here tally.now symbols.now layers.now x.class serials.now x.at used_all.now (top_lent marks.old used.old header.old) (top_lent marks.new used.new header.new) t.old t.new result }
{
    let ns = tally[TALLY_SYMBOLS] as usize;
    let nl = tally[TALLY_LAYERS] as usize;
    let first = x.at.volume == 1;
    let did = on_top(
        s,
        &symbols[..ns],
        &layers[..nl],
        first,
        x.here,
        x.form,
        x.at,
        tally,
        marks,
        used,
        used_all,
        header,
        &mut t[0..WIDTH],
    );
    partners_met(did, x.class, s, tally, serials)
}

fn in_file(
    s: &[u8],
    following: &[u8],
    x: LineAt,
    tally: &mut [u32],
    symbols: &[u32],
    layers: &[u32],
    marks: &mut [bool],
    header: &mut [i64],
) -> Step
    requires { (length s.now ≤ 61440) × Named tally.old symbols.now layers.now × FileReady (eqb x.at.volume 1) x.here tally.old marks.old header.old }
    ensures { OnFile s.now x.form x.here tally.old symbols.now layers.now following.now x.at tally.new marks.old marks.new header.old header.new result }
{
    let ns = tally[TALLY_SYMBOLS] as usize;
    let nl = tally[TALLY_LAYERS] as usize;
    let first = x.at.volume == 1;
    on_file(
        s,
        &symbols[..ns],
        &layers[..nl],
        following,
        first,
        x.here,
        x.form,
        tally,
        marks,
        header,
    )
}

fn in_drawing(
    s: &[u8],
    x: LineAt,
    tally: &[u32],
    symbols: &[u32],
    layers: &[u32],
    marks: &mut [bool],
    t: &mut [i64],
) -> Step
    requires { (length s.now ≤ 61440) × Named tally.now symbols.now layers.now × (length marks.old ≡ most_rows) × (length t.old ≡ scratch_length) }
    ensures { OnDrawing s.now x.form x.here tally.now symbols.now layers.now marks.old marks.new t.old t.new result }
{
    let ns = tally[TALLY_SYMBOLS] as usize;
    let arc = tally[TALLY_ARC];
    on_drawing(
        s,
        &symbols[..ns],
        &layers[..0],
        arc,
        x.here,
        x.form,
        marks,
        &mut t[0..WIDTH],
    )
}

fn in_layer_names(
    s: &[u8],
    x: LineAt,
    tally: &mut [u32],
    symbols: &[u32],
    layers: &mut [u32],
    t: &mut [i64],
) -> Step
    requires { (length s.now ≤ 61440) × Named tally.old symbols.now layers.old × (length layers.old ≡ 64) × (length t.old ≡ scratch_length) × (x.here.records < 18446744073709551615) }
    ensures { OnNames s.now x.form x.here tally.old symbols.now layers.old x.at tally.new layers.new t.old t.new result }
{
    on_layer_names(
        s,
        tally,
        layers,
        x.here,
        x.form,
        x.at,
        &mut t[WIDTH..SECOND_END],
    )
}

fn in_defines(
    s: &[u8],
    x: LineAt,
    tally: &[u32],
    symbols: &[u32],
    layers: &[u32],
    marks: &mut [bool],
    t: &mut [i64],
) -> Step
    requires { (length s.now ≤ 61440) × Named tally.now symbols.now layers.now × (length t.old ≡ scratch_length) × (x.here.records < 18446744073709551615) }
    ensures { OnDefines s.now x.form x.here tally.now symbols.now layers.now x.at marks.old marks.new t.old t.new result }
{
    let ns = tally[TALLY_SYMBOLS] as usize;
    let nl = tally[TALLY_LAYERS] as usize;
    let define = tally[TALLY_DEFINE_RANGE];
    on_defines(
        s,
        &symbols[..ns],
        &layers[..nl],
        define,
        x.here,
        x.form,
        x.at,
        marks,
        &mut t[0..WIDTH],
    )
}

fn in_symbol(
    s: &[u8],
    x: LineAt,
    tally: &mut [u32],
    symbols: &mut [u32],
    layers: &[u32],
    marks: &mut [bool],
    t: &mut [i64],
) -> Step
    requires { (length s.now ≤ 61440) × Named tally.old symbols.old layers.now × (x.here.block ≡ block_symbol) × SymbolReady s.now x.form x.here tally.old symbols.old layers.now marks.old t.old × (length t.old ≡ scratch_length) }
    ensures { OnSymbol s.now x.form x.here tally.old symbols.old layers.now tally.new symbols.new marks.old marks.new t.old t.new result }
{
    let ns = tally[TALLY_SYMBOLS] as usize;
    let nl = tally[TALLY_LAYERS] as usize;
    let define = tally[TALLY_DEFINE_RANGE];
    let r = on_symbol(
        s,
        &symbols[..ns],
        &layers[..nl],
        define,
        x.here,
        x.form,
        marks,
        &mut t[0..WIDTH],
    );
    name_kept(r, tally, symbols, &t[0..WIDTH])
}

fn in_hide(
    s: &[u8],
    x: LineAt,
    tally: &[u32],
    symbols: &[u32],
    layers: &[u32],
    t: &mut [i64],
) -> Step
    requires { (length s.now ≤ 61440) × Named tally.now symbols.now layers.now × (x.here.points < 4294967295) × (length t.old ≡ scratch_length) × (x.here.records < 18446744073709551615) }
    ensures { OnHide s.now x.form x.here tally.now symbols.now layers.now x.at t.old t.new result }
{
    let ns = tally[TALLY_SYMBOLS] as usize;
    let nl = tally[TALLY_LAYERS] as usize;
    on_hide(
        s,
        &symbols[..ns],
        &layers[..nl],
        x.here,
        x.form,
        x.at,
        &mut t[WIDTH..SECOND_END],
    )
}

fn in_elements(
    s: &[u8],
    x: LineAt,
    tally: &mut [u32],
    symbols: &[u32],
    layers: &[u32],
    used: &mut [bool],
    used_all: &mut [bool],
) -> Step
    requires { (length s.now ≤ 61440) × Named tally.old symbols.now layers.now × (get_or tally.old tally_total 0 + get_or tally.old tally_elements_here 0 ≤ 4294967295) × (length used.old ≡ 64) × (length used_all.old ≡ 64) }
    ensures { OnElements s.now x.form x.here tally.old symbols.now layers.now tally.new used.old used.new used_all.old used_all.new result }
{
    let ns = tally[TALLY_SYMBOLS] as usize;
    let nl = tally[TALLY_LAYERS] as usize;
    on_elements(
        s,
        &symbols[..ns],
        &layers[..nl],
        x.here,
        x.form,
        tally,
        used,
        used_all,
    )
}

fn in_figures(
    s: &[u8],
    x: LineAt,
    tally: &mut [u32],
    symbols: &[u32],
    layers: &[u32],
    marks: &mut [bool],
    inner: &mut [bool],
    t: &mut [i64],
) -> Step
    requires { (length s.now ≤ 61440) × Named tally.old symbols.now layers.now × (get_or tally.old tally_elements_here 0 + x.here.figures < 4294967295) × (length t.old ≡ scratch_length) × (x.here.records + 2 ≤ 18446744073709551615) }
    ensures { OnFigures s.now x.form x.here tally.old symbols.now layers.now x.class x.at tally.new marks.old marks.new inner.old inner.new t.old t.new result }
{
    let ns = tally[TALLY_SYMBOLS] as usize;
    let nl = tally[TALLY_LAYERS] as usize;
    let range = tally[TALLY_SYMBOL_RANGE];
    let wires = tally[TALLY_WIRE_RANGE];
    let did = on_figures(
        s,
        &symbols[..ns],
        &layers[..nl],
        range,
        wires,
        x.here,
        x.form,
        x.at,
        marks,
        inner,
        &mut t[WIDTH..SECOND_END],
    );
    let r = begin_wire(did, x.class, x.at, t);
    layer_counted(r, tally)
}

fn in_chain(
    s: &[u8],
    x: LineAt,
    tally: &[u32],
    symbols: &[u32],
    layers: &[u32],
    t: &mut [i64],
) -> Step
    requires { (length s.now ≤ 61440) × Named tally.now symbols.now layers.now × (x.here.figures < 4294967295) × (x.here.points < 4294967295) × (length t.old ≡ scratch_length) × (x.here.records < 18446744073709551615) }
    ensures { OnChain s.now x.form x.here tally.now symbols.now layers.now x.at t.old t.new result }
{
    let ns = tally[TALLY_SYMBOLS] as usize;
    let nl = tally[TALLY_LAYERS] as usize;
    on_chain(
        s,
        &symbols[..ns],
        &layers[..nl],
        x.here,
        x.form,
        x.at,
        &mut t[WIDTH..SCRATCH_LENGTH],
    )
}

fn in_text(
    s: &[u8],
    x: LineAt,
    tally: &[u32],
    symbols: &[u32],
    layers: &[u32],
    inner: &mut [bool],
    t: &mut [i64],
) -> Step
    requires { (length s.now ≤ 61440) × Named tally.now symbols.now layers.now × (x.here.figures < 4294967295) × (length inner.old ≡ 2) × (length t.old ≡ scratch_length) }
    ensures { OnText s.now x.form x.here tally.now symbols.now layers.now inner.old inner.new t.old t.new result }
{
    let ns = tally[TALLY_SYMBOLS] as usize;
    let nl = tally[TALLY_LAYERS] as usize;
    on_text(
        s,
        &symbols[..ns],
        &layers[..nl],
        x.here,
        x.form,
        inner,
        &mut t[WIDTH..SECOND_END],
    )
}

fn in_placed(
    s: &[u8],
    x: LineAt,
    tally: &mut [u32],
    symbols: &[u32],
    layers: &[u32],
    serials: &mut [u64],
    marks: &mut [bool],
    inner: &mut [bool],
    t: &mut [i64],
) -> Step
    requires { (length s.now ≤ 61440) × Named tally.old symbols.now layers.now × LentReady (lent tally.old serials.old marks.old inner.old) × (x.here.figures < 4294967295) × (length t.old ≡ scratch_length) }
    ensures { OnPlaced s.now x.form x.here tally.old symbols.now layers.now x.class (lent tally.old serials.old marks.old inner.old) (lent tally.new serials.new marks.new inner.new) t.old t.new result }
{
    let ns = tally[TALLY_SYMBOLS] as usize;
    let nl = tally[TALLY_LAYERS] as usize;
    let range = tally[TALLY_SYMBOL_RANGE];
    on_placed(
        s,
        &symbols[..ns],
        &layers[..nl],
        x.class.symbols,
        range,
        x.here,
        x.form,
        tally,
        serials,
        marks,
        inner,
        &mut t[WIDTH..SECOND_END],
    )
}

fn in_wire(
    s: &[u8],
    x: LineAt,
    tally: &mut [u32],
    symbols: &[u32],
    layers: &[u32],
    serials: &mut [u64],
    marks: &mut [bool],
    inner: &mut [bool],
    t: &mut [i64],
) -> Step
    requires { (length s.now ≤ 61440) × Named tally.old symbols.now layers.now × WireReady (lent tally.old serials.old marks.old inner.old) x.here t.old }
    ensures { OnWire s.now x.form x.here tally.old symbols.now layers.now x.class x.at (lent tally.old serials.old marks.old inner.old) (lent tally.new serials.new marks.new inner.new) t.old t.new result }
{
    let ns = tally[TALLY_SYMBOLS] as usize;
    let nl = tally[TALLY_LAYERS] as usize;
    on_wire(
        s,
        &symbols[..ns],
        &layers[..nl],
        x,
        tally,
        serials,
        marks,
        inner,
        t,
    )
}

// A line at the top level or in FILE_FORMAT.
fn head_line(
    s: &[u8],
    following: &[u8],
    x: LineAt,
    tally: &mut [u32],
    symbols: &[u32],
    layers: &[u32],
    serials: &[u64],
    used: &mut [bool],
    used_all: &[bool],
    marks: &mut [bool],
    header: &mut [i64],
    t: &mut [i64],
) -> Step
    requires { HeadFits s.now x.form x.at x.here tally.old symbols.now layers.now serials.now used.old used_all.now marks.old header.old t.old × (x.here.block < block_drawing) }
    ensures { HeadDone s.now x.form x.at x.here x.class following.now tally.old tally.new symbols.now layers.now serials.now used.old used.new used_all.now marks.old marks.new header.old header.new t.old t.new result }
{
    match x.here.block {
        BLOCK_TOP => at_top(
            s, x, tally, symbols, layers, serials, used, used_all, marks, header, t,
        ),
        _ => in_file(s, following, x, tally, symbols, layers, marks, header),
    }
}

// A line in DRAWING_FORMAT or in SYMBOL_DEFINE, but for the figures of a symbol.
fn sheet_line(
    s: &[u8],
    x: LineAt,
    tally: &mut [u32],
    symbols: &mut [u32],
    layers: &mut [u32],
    marks: &mut [bool],
    t: &mut [i64],
) -> Step
    requires { SheetFits s.now x.form x.at x.here tally.old symbols.old layers.old marks.old t.old × (block_drawing ≤ x.here.block) × (x.here.block < block_elements) }
    ensures { SheetDone s.now x.form x.at x.here tally.old tally.new symbols.old symbols.new layers.old layers.new marks.old marks.new t.old t.new result }
{
    match x.here.block {
        BLOCK_DRAWING => in_drawing(s, x, tally, symbols, layers, marks, t),
        BLOCK_LAYER_NAMES => in_layer_names(s, x, tally, symbols, layers, t),
        BLOCK_DEFINES => in_defines(s, x, tally, symbols, layers, marks, t),
        BLOCK_SYMBOL => in_symbol(s, x, tally, symbols, layers, marks, t),
        _ => in_hide(s, x, tally, symbols, layers, t),
    }
}

// A line among figures, or in one.
fn figure_line(
    s: &[u8],
    x: LineAt,
    tally: &mut [u32],
    symbols: &[u32],
    layers: &[u32],
    serials: &mut [u64],
    marks: &mut [bool],
    inner: &mut [bool],
    t: &mut [i64],
) -> Step
    requires { FiguresFit s.now x.form x.at x.here tally.old symbols.now layers.now serials.old marks.old inner.old t.old × (block_figures ≤ x.here.block) }
    ensures { FiguresDone s.now x.form x.at x.here x.class tally.old tally.new symbols.now layers.now serials.old serials.new marks.old marks.new inner.old inner.new t.old t.new result }
{
    match x.here.block {
        BLOCK_FIGURES => in_figures(s, x, tally, symbols, layers, marks, inner, t),
        BLOCK_CHAIN => in_chain(s, x, tally, symbols, layers, t),
        BLOCK_TEXT => in_text(s, x, tally, symbols, layers, inner, t),
        BLOCK_PLACED => in_placed(s, x, tally, symbols, layers, serials, marks, inner, t),
        BLOCK_WIRE => in_wire(s, x, tally, symbols, layers, serials, marks, inner, t),
        _ => Step::Stop(Rule::Order as u8),
    }
}

// What one line does, as the definitions say.
pub(crate) fn step(
    s: &[u8],
    following: &[u8],
    x: LineAt,
    tally: &mut [u32],
    symbols: &mut [u32],
    layers: &mut [u32],
    serials: &mut [u64],
    used: &mut [bool],
    used_all: &mut [bool],
    marks: &mut [bool],
    inner: &mut [bool],
    header: &mut [i64],
    scratch: &mut [i64],
) -> Step
    requires { LineReady x.class s.now x.at.volume x.form x.at (desk x.here tally.old symbols.old layers.old serials.old used.old used_all.old marks.old inner.old header.old scratch.old) following.now }
    ensures { LinePromise x.class s.now x.at.volume x.form x.at (desk x.here tally.old symbols.old layers.old serials.old used.old used_all.old marks.old inner.old header.old scratch.old) (desk x.here tally.new symbols.new layers.new serials.new used.new used_all.new marks.new inner.new header.new scratch.new) following.now result }
{
    match x.here.block {
        ..BLOCK_DRAWING => head_line(
            s, following, x, tally, symbols, layers, serials, used, used_all, marks, header,
            scratch,
        ),
        BLOCK_DRAWING..BLOCK_ELEMENTS => sheet_line(s, x, tally, symbols, layers, marks, scratch),
        BLOCK_ELEMENTS => in_elements(s, x, tally, symbols, layers, used, used_all),
        BLOCK_FIGURES.. => figure_line(
            s, x, tally, symbols, layers, serials, marks, inner, scratch,
        ),
    }
}
