// The keys of document 01: fixed byte strings, each compared with its part of the spool. (What is written of them is written from the same.)
// Made by tools/make-keys from the definitions' rows: change those, or the script.
pub const FILE_FORMAT: [u8; 11] = *b"FILE_FORMAT";

pub const DRAWING_FORMAT: [u8; 14] = *b"DRAWING_FORMAT";

pub const SYMBOL_DEFINE: [u8; 13] = *b"SYMBOL_DEFINE";

pub const ELEMENT_BLOCK: [u8; 7] = *b"ELEMENT";

pub const RANGE: [u8; 5] = *b"range";

pub const ALL_LINE: [u8; 8] = *b"all_line";

pub const THIS_LINE: [u8; 9] = *b"this_line";

pub const ALL_ELE: [u8; 7] = *b"all_ele";

pub const THIS_ELE: [u8; 8] = *b"this_ele";

pub const NEXT_FILE: [u8; 9] = *b"next_file";

pub const DATE: [u8; 4] = *b"date";

pub const TIME: [u8; 4] = *b"time";

pub const CAD: [u8; 3] = *b"cad";

pub const OS: [u8; 2] = *b"os";

pub const HARD: [u8; 4] = *b"hard";

pub const VER: [u8; 3] = *b"ver";

pub const CORP: [u8; 4] = *b"corp";

pub const MAKE: [u8; 4] = *b"make";

pub const TEL: [u8; 3] = *b"tel";

pub const NAME: [u8; 4] = *b"name";

pub const BASE: [u8; 4] = *b"base";

pub const ARC: [u8; 3] = *b"arc";

pub const ELEC: [u8; 4] = *b"elec";

pub const AIR: [u8; 3] = *b"air";

pub const PIPE: [u8; 4] = *b"pipe";

pub const SYM: [u8; 3] = *b"sym";

pub const B_SYM: [u8; 5] = *b"B_sym";

pub const E_SYM: [u8; 5] = *b"E_sym";

pub const E_WIRE: [u8; 6] = *b"E_wire";

pub const E_CIRNO: [u8; 7] = *b"E_cirno";

pub const S_BASE: [u8; 6] = *b"S_base";

pub const S_ELEC: [u8; 6] = *b"S_elec";

pub const SIZE: [u8; 4] = *b"size";

pub const SCALE: [u8; 5] = *b"scale";

pub const PROJECT: [u8; 7] = *b"project";

pub const DRAWNAME: [u8; 8] = *b"drawname";

pub const DRAWER: [u8; 6] = *b"drawer";

pub const FLOOR_HEIGHT: [u8; 12] = *b"floor_height";

pub const LAYER_NAME: [u8; 10] = *b"layer_name";

pub const NON: [u8; 3] = *b"NON";

pub const E_SYMBOL: [u8; 8] = *b"E_symbol";

pub const ELEMENT: [u8; 7] = *b"element";

pub const HIDE: [u8; 4] = *b"hide";

pub const WALL: [u8; 4] = *b"wall";

pub const LAYER: [u8; 5] = *b"LAYER";

pub const LINE: [u8; 4] = *b"line";

pub const CIRCLE: [u8; 6] = *b"circle";

pub const ELLIPSE: [u8; 7] = *b"ellipse";

pub const POINT: [u8; 5] = *b"point";

pub const SUCCESSIVE: [u8; 10] = *b"successive";

pub const TEXT: [u8; 4] = *b"text";

pub const TYPE: [u8; 4] = *b"type";

pub const CHARACTER: [u8; 9] = *b"character";

pub const SYMBOL: [u8; 6] = *b"symbol";

pub const HIGHT: [u8; 5] = *b"hight";

pub const POS: [u8; 3] = *b"pos";

pub const CIRCUIT: [u8; 7] = *b"circuit";

pub const SERIAL: [u8; 6] = *b"serial";

pub const DIREC: [u8; 5] = *b"direc";

pub const PIEND: [u8; 5] = *b"piend";

pub const NUM: [u8; 3] = *b"num";

pub const LENGTH: [u8; 6] = *b"length";

pub const POWER: [u8; 5] = *b"power";
