// The tables of document 01: for each block its rows, each with its key.
// Made by tools/make-keys from the definitions' rows: change those, or the script.
use crate::keys::{
    AIR, ALL_ELE, ALL_LINE, ARC, B_SYM, BASE, CAD, CIRCLE, CIRCUIT, CORP, DATE, DIREC, DRAWER,
    DRAWING_FORMAT, DRAWNAME, E_CIRNO, E_SYM, E_SYMBOL, E_WIRE, ELEC, ELEMENT, ELEMENT_BLOCK,
    FILE_FORMAT, FLOOR_HEIGHT, HARD, HIDE, HIGHT, LAYER, LAYER_NAME, LENGTH, LINE, MAKE, NAME,
    NEXT_FILE, NON, NUM, OS, PIEND, PIPE, POS, POWER, PROJECT, RANGE, S_BASE, S_ELEC, SCALE,
    SERIAL, SIZE, SYM, SYMBOL, SYMBOL_DEFINE, TEL, TEXT, THIS_ELE, THIS_LINE, TIME, VER, WALL,
};
use crate::rows::{Entry, row};
use crate::{
    ACROSS_ARC, ACROSS_ENDS, ACROSS_POWER, HOLDS_BLOCK, HOLDS_EITHER, HOLDS_HEADED, HOLDS_NOTHING,
    HOLDS_RATIO, HOLDS_SERIALS, HOLDS_SHEET, HOLDS_TEXT, HOLDS_VOLUME_NAME, HOLDS_WIRE_SERIAL,
    HOLDS_WORD, PART_ANY_SIGN, PART_CLOCK, PART_COUNT, PART_DAY, PART_LAYER_ID, PART_NOT_NEGATIVE,
    PART_POSITION, PART_RANGE_0, PART_RANGE_0_1, PART_RANGE_0_2, PART_RANGE_1, PART_SYMBOL_RANGE,
    PART_WIRE_RANGE, TIMES_ANY,
};
use leaves::texts::TEXT_SETS;
use rules::{Digits, TEXT_LIMITS};

// several forms, two digits each, the first one last: type,x,y and the like
const WALL_FORMS: u64 = 20_20;

const SYMBOL_FORMS: u64 = 22_23_21_21_15;

const LINE_FORMS: u64 = 21_21_21_21_17;

const CIRCLE_FORMS: u64 = 5_23_23_22_20_20_17;

const DIREC_FORMS: u64 = 23_21_21_02;

const PIEND_FORMS: u64 = 23_21_21;

const NUM_FORMS: u64 = 24_21_21_07_05;

const POWER_FORMS: u64 = 7_03_03;

// sets of bytes
const LETTERS_AND_DIGITS: u8 = 2;

const CIRCUIT_BYTES: u8 = 4;

// Outside all blocks; the order of the blocks is judged by the reader.
pub(crate) static TOP_ROWS: [Entry; 4] = [
    row!(0, FILE_FORMAT, kind: HOLDS_BLOCK, times: TIMES_ANY),
    row!(1, DRAWING_FORMAT, kind: HOLDS_BLOCK, times: TIMES_ANY),
    row!(2, SYMBOL_DEFINE, kind: HOLDS_BLOCK, times: TIMES_ANY),
    row!(3, ELEMENT_BLOCK, kind: HOLDS_BLOCK, times: TIMES_ANY),
];

// FILE_FORMAT of the first volume: its record and the volume's behind it.
pub(crate) static FILE_ROWS: [Entry; 16] = [
    row!(0, RANGE, kind: HOLDS_BLOCK, inner: 1),
    row!(1, ALL_LINE, parts: PART_COUNT, place: 12),
    row!(2, THIS_LINE, parts: PART_COUNT, place: 37),
    row!(3, ALL_ELE, parts: PART_COUNT, place: 13),
    row!(4, THIS_ELE, parts: PART_COUNT, place: 38),
    row!(5, NEXT_FILE, kind: HOLDS_VOLUME_NAME, may: true),
    row!(6, DATE, parts: PART_DAY, place: 14),
    row!(7, TIME, parts: PART_CLOCK, place: 15),
    row!(8, CAD, kind: HOLDS_TEXT, most: TEXT_LIMITS[0], set: TEXT_SETS[0], place: 16),
    row!(9, OS, kind: HOLDS_TEXT, most: TEXT_LIMITS[1], set: TEXT_SETS[1], place: 18),
    row!(10, HARD, kind: HOLDS_TEXT, most: TEXT_LIMITS[2], set: TEXT_SETS[2], place: 20),
    row!(11, VER, kind: HOLDS_TEXT, most: TEXT_LIMITS[3], set: TEXT_SETS[3], place: 22),
    row!(12, CORP, kind: HOLDS_TEXT, most: TEXT_LIMITS[4], set: TEXT_SETS[4], place: 24, may: true),
    row!(13, MAKE, kind: HOLDS_TEXT, most: TEXT_LIMITS[5], set: TEXT_SETS[5], place: 26, may: true),
    row!(14, TEL, kind: HOLDS_TEXT, most: TEXT_LIMITS[6], set: TEXT_SETS[6], place: 28, may: true),
    row!(15, NAME, kind: HOLDS_TEXT, most: TEXT_LIMITS[7], set: TEXT_SETS[7], place: 30, may: true),
];

// `range`.
pub(crate) static RANGE_ROWS: [Entry; 6] = [
    row!(0, BASE, kind: HOLDS_HEADED, parts: PART_RANGE_1, inner: 2),
    row!(1, ARC, parts: PART_RANGE_0_1, place: 6),
    row!(2, ELEC, kind: HOLDS_EITHER, inner: 3, place: 7),
    row!(3, AIR, parts: PART_RANGE_0),
    row!(4, PIPE, parts: PART_RANGE_0),
    row!(5, SYM, kind: HOLDS_EITHER, inner: 4, place: 9),
];

// `base=001:{`.
pub(crate) static BASE_ROWS: [Entry; 1] = [row!(0, B_SYM, parts: PART_RANGE_0_1, place: 5)];

// `elec=001:{`.
pub(crate) static ELEC_ROWS: [Entry; 3] = [
    row!(0, E_SYM, parts: PART_SYMBOL_RANGE, place: 8),
    row!(1, E_WIRE, parts: PART_WIRE_RANGE),
    row!(2, E_CIRNO, parts: PART_RANGE_0),
];

// `sym=001:{`.
pub(crate) static SYM_ROWS: [Entry; 2] = [
    row!(0, S_BASE, parts: PART_RANGE_0_1, place: 10),
    row!(1, S_ELEC, parts: PART_RANGE_0_2, place: 11),
];

// FILE_FORMAT of later volumes.
pub(crate) static LATER_ROWS: [Entry; 5] = [
    row!(0, THIS_LINE, parts: PART_COUNT, place: 5),
    row!(1, THIS_ELE, parts: PART_COUNT, place: 6),
    row!(2, NEXT_FILE, kind: HOLDS_VOLUME_NAME, may: true),
    row!(3, DATE, parts: PART_DAY),
    row!(4, TIME, parts: PART_CLOCK),
];

// DRAWING_FORMAT; its range is arc.
pub(crate) static DRAWING_ROWS: [Entry; 8] = [
    row!(0, SIZE, kind: HOLDS_SHEET, place: 5),
    row!(1, SCALE, kind: HOLDS_RATIO, place: 7),
    row!(2, PROJECT, kind: HOLDS_TEXT, most: TEXT_LIMITS[8], set: TEXT_SETS[8], place: 12),
    row!(3, DRAWNAME, kind: HOLDS_TEXT, most: TEXT_LIMITS[9], set: TEXT_SETS[9], place: 14),
    row!(4, DATE, parts: PART_DAY, place: 9),
    row!(5, DRAWER, kind: HOLDS_TEXT, most: TEXT_LIMITS[10], set: TEXT_SETS[10], place: 16, may: true),
    row!(6, FLOOR_HEIGHT, parts: PART_NOT_NEGATIVE, place: 11, may: true, least: Digits { middle: 0, last: 1 }, state: 10),
    row!(7, LAYER_NAME, kind: HOLDS_BLOCK, inner: 1),
];

// SYMBOL_DEFINE; its range is S_elec.
pub(crate) static DEFINES_ROWS: [Entry; 2] = [
    row!(0, NON, kind: HOLDS_NOTHING),
    row!(1, E_SYMBOL, kind: HOLDS_BLOCK, inner: 1, times: TIMES_ANY, least: Digits { middle: 0, last: 1 }),
];

// E_symbol in SYMBOL_DEFINE; its range is S_elec.
pub(crate) static SYMBOL_ROWS: [Entry; 4] = [
    row!(0, NAME, kind: HOLDS_WORD, most: 32, set: LETTERS_AND_DIGITS, place: 5),
    row!(1, ELEMENT, kind: HOLDS_BLOCK, inner: 1),
    row!(2, HIDE, kind: HOLDS_BLOCK, inner: 2),
    row!(3, WALL, parts: WALL_FORMS, count: 1, place: 8, may: true, least: Digits { middle: 0, last: 2 }, state: 7),
];

// ELEMENT.
pub(crate) static ELEMENT_ROWS: [Entry; 1] = [
    row!(0, LAYER, kind: HOLDS_HEADED, parts: PART_LAYER_ID, inner: 1, times: TIMES_ANY),
];

// A placed symbol's block; its range is E_sym.
pub(crate) static PLACED_ROWS: [Entry; 6] = [
    row!(0, SYMBOL, parts: SYMBOL_FORMS, count: 4, place: 5),
    row!(1, TEXT, kind: HOLDS_BLOCK, inner: 1, least: Digits { middle: 0, last: 2 }, state: 26),
    row!(2, HIGHT, parts: PART_ANY_SIGN, place: 10, may: true, least: Digits { middle: 0, last: 3 }, state: 27),
    row!(3, POS, parts: PART_POSITION, place: 11, may: true, least: Digits { middle: 0, last: 4 }, state: 28),
    row!(4, CIRCUIT, kind: HOLDS_WORD, most: 10, set: CIRCUIT_BYTES, place: 12, may: true, least: Digits { middle: 0, last: 5 }, state: 29),
    row!(5, SERIAL, kind: HOLDS_SERIALS, place: 14, least: Digits { middle: 1, last: 0 }, state: 30),
];

// A wire's block; its range is the last two digits of E_wire.
pub(crate) static WIRE_ROWS: [Entry; 10] = [
    row!(0, LINE, parts: LINE_FORMS, count: 4, across: ACROSS_ENDS, place: 4, times: TIMES_ANY),
    row!(1, CIRCLE, parts: CIRCLE_FORMS, count: 6, across: ACROSS_ARC, place: 4, times: TIMES_ANY),
    row!(2, DIREC, parts: DIREC_FORMS, count: 3, times: 2, least: Digits { middle: 0, last: 2 }, state: 26),
    row!(3, PIEND, parts: PIEND_FORMS, count: 2, times: TIMES_ANY, least: Digits { middle: 0, last: 3 }, state: 27),
    row!(4, NUM, parts: NUM_FORMS, count: 4, times: TIMES_ANY, least: Digits { middle: 0, last: 4 }, state: 28),
    row!(5, TEXT, kind: HOLDS_BLOCK, inner: 1, times: TIMES_ANY, least: Digits { middle: 0, last: 5 }, state: 58),
    row!(6, LENGTH, parts: PART_NOT_NEGATIVE, place: 25, may: true, least: Digits { middle: 0, last: 6 }, state: 29),
    row!(7, CIRCUIT, kind: HOLDS_WORD, most: 10, set: CIRCUIT_BYTES, place: 48, may: true, least: Digits { middle: 0, last: 7 }, state: 59),
    row!(8, POWER, parts: POWER_FORMS, count: 2, across: ACROSS_POWER, place: 50, may: true, least: Digits { middle: 0, last: 8 }, state: 60),
    row!(9, SERIAL, kind: HOLDS_WIRE_SERIAL, place: 53, least: Digits { middle: 1, last: 0 }, state: 61),
];
