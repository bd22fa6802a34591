// The tables of figures, points and texts, whose rows go by where they stand: in a layer or in a symbol. Each row with its key.
use crate::keys::{
    CHARACTER, CIRCLE, E_SYMBOL, E_WIRE, ELLIPSE, LINE, POINT, SUCCESSIVE, TEXT, TYPE,
};
use crate::rows::{Entry, row};
use crate::{
    ACROSS_ARC, ACROSS_AXES, ACROSS_ENDS, ARC_FORMS, HOLDS_BLOCK, HOLDS_CIRCLE, HOLDS_TEXT,
    TIMES_ANY,
};
use leaves::texts::TEXT_SETS;
use rules::{Digits, TEXT_LIMITS};

const MOST_POINTS: u8 = 100;

// several forms, two digits each, the first one last: type,x,y and the like; in layers no coordinate is negative, in symbols any sign stands
const LINE_IN_LAYER: u64 = 21_21_21_21_17;

const LINE_IN_SYMBOL: u64 = 20_20_20_20_17;

const ELLIPSE_FORMS: u64 = 5_23_23_23_22_22_20_20_17;

const POINT_IN_LAYER: u64 = 21_21_17;

const POINT_IN_SYMBOL: u64 = 20_20_17;

const LETTERING_IN_LAYER: u64 = 5_23_21_22_22_21_21_17;

const LETTERING_IN_SYMBOL: u64 = 5_23_21_22_22_20_20_17;

const PLACING: u64 = 22_23_21_21_15;

// The rows that stand in several tables. A circle has in a layer an arc's values, in a symbol those or a whole circle's.
const LAYER_LINE: Entry =
    row!(0, LINE, parts: LINE_IN_LAYER, count: 4, across: ACROSS_ENDS, place: 4, times: TIMES_ANY);

const LAYER_CIRCLE: Entry =
    row!(1, CIRCLE, parts: ARC_FORMS, count: 6, across: ACROSS_ARC, place: 4, times: TIMES_ANY);

const ANY_ELLIPSE: Entry =
    row!(2, ELLIPSE, parts: ELLIPSE_FORMS, count: 8, across: ACROSS_AXES, place: 4, times: TIMES_ANY);

const LAYER_POINT: Entry =
    row!(3, POINT, parts: POINT_IN_LAYER, count: 2, place: 4, times: TIMES_ANY);

const ANY_SUCCESSIVE: Entry = row!(4, SUCCESSIVE, kind: HOLDS_BLOCK, inner: 1, times: TIMES_ANY);

const ANY_TEXT: Entry = row!(5, TEXT, kind: HOLDS_BLOCK, inner: 2, times: TIMES_ANY);

const LAYER_WIRE: Entry = row!(7, E_WIRE, kind: HOLDS_BLOCK, inner: 4, times: TIMES_ANY);

// The figures of a layer, and a placed symbol's block and a wire among them. (Where no wire may stand, the last row is left out: lookup.)
pub(crate) static LAYER_ROWS: [Entry; 8] = [
    LAYER_LINE,
    LAYER_CIRCLE,
    ANY_ELLIPSE,
    LAYER_POINT,
    ANY_SUCCESSIVE,
    ANY_TEXT,
    row!(6, E_SYMBOL, kind: HOLDS_BLOCK, inner: 3, place: 5, times: TIMES_ANY, least: Digits { middle: 0, last: 1 }),
    LAYER_WIRE,
];

// The same with placed symbols on one line.
pub(crate) static SINGLE_LAYER_ROWS: [Entry; 8] = [
    LAYER_LINE,
    LAYER_CIRCLE,
    ANY_ELLIPSE,
    LAYER_POINT,
    ANY_SUCCESSIVE,
    ANY_TEXT,
    row!(6, E_SYMBOL, parts: PLACING, count: 4, place: 5, times: TIMES_ANY, least: Digits { middle: 0, last: 1 }),
    LAYER_WIRE,
];

// The figures of a symbol's `element`.
pub(crate) static FIGURE_ROWS: [Entry; 6] = [
    row!(0, LINE, parts: LINE_IN_SYMBOL, count: 4, across: ACROSS_ENDS, place: 4, times: TIMES_ANY),
    row!(1, CIRCLE, kind: HOLDS_CIRCLE, place: 4, times: TIMES_ANY),
    ANY_ELLIPSE,
    row!(3, POINT, parts: POINT_IN_SYMBOL, count: 2, place: 4, times: TIMES_ANY),
    ANY_SUCCESSIVE,
    ANY_TEXT,
];

// `successive` or `hide`.
pub(crate) static LAYER_POINT_ROWS: [Entry; 1] = [
    row!(0, POINT, parts: POINT_IN_LAYER, count: 2, place: 4, times: MOST_POINTS),
];

pub(crate) static SYMBOL_POINT_ROWS: [Entry; 1] = [
    row!(0, POINT, parts: POINT_IN_SYMBOL, count: 2, place: 4, times: MOST_POINTS),
];

// `text`, whose two lines go to these places of the record.
pub(crate) static LAYER_TEXT_ROWS: [Entry; 2] = [
    row!(0, TYPE, parts: LETTERING_IN_LAYER, count: 7, place: 4),
    row!(1, CHARACTER, kind: HOLDS_TEXT, most: TEXT_LIMITS[11], set: TEXT_SETS[11], place: 12),
];

pub(crate) static SYMBOL_TEXT_ROWS: [Entry; 2] = [
    row!(0, TYPE, parts: LETTERING_IN_SYMBOL, count: 7, place: 4),
    row!(1, CHARACTER, kind: HOLDS_TEXT, most: TEXT_LIMITS[11], set: TEXT_SETS[11], place: 12),
];

pub(crate) static PLACED_TEXT_ROWS: [Entry; 2] = [
    row!(0, TYPE, parts: LETTERING_IN_LAYER, count: 7, place: 16),
    row!(1, CHARACTER, kind: HOLDS_TEXT, most: TEXT_LIMITS[11], set: TEXT_SETS[11], place: 24),
];
