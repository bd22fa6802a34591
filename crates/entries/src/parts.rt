// One value between commas.
ghost use Rattle.std.specs.Prelude.{◌≡◌, ◌&&◌, ◌<◌, pos, Bool, cond, MatchOption};
ghost use Rattle.std.specs.Option.{ForSome};
ghost use Rattle.std.specs.Int.Signed.{le_z};
ghost use Rattle.rules.specs.Base.{within as in_range};
ghost use Rattle.rules.specs.Values.{served_symbols, served_wires, equal_z, in_bound, layer_id, read_part};
ghost use Rattle.tables.specs.Rows.{bound_of, whole_of, part_of};
ghost use Rattle.entries.specs.Names.{known_of};
ghost use Rattle.entries.specs.Parts.{val_of, count_val, reading_val, decimal_val, index_val, PieceIs};

use crate::names::index_of;
use crate::{Known, Piece};
use leaves::Decimal;
use leaves::bytes::{find, is_layer_id, within};
use leaves::numbers::{clock, count, day, decimal, fixed};
use leaves::pieces::decimal_piece;
use rules::Rule;
use tables::{
    PART_ABOVE_ZERO, PART_ANY_SIGN, PART_CLOCK, PART_COUNT, PART_DAY, PART_DIGIT, PART_FLAG,
    PART_HALF_TURN, PART_LAYER_ID, PART_NO_ANGLE, PART_NOT_NEGATIVE, PART_POSITION, PART_RANGE_0,
    PART_RANGE_0_1, PART_RANGE_0_2, PART_RANGE_1, PART_SIGN, PART_SYMBOL_NAME, PART_SYMBOL_RANGE,
    PART_WHOLE_TURN, PART_WIRE_RANGE,
};

// The most that the first, the middle and the last digit of E_wire may be. (They have the same names in the definitions' Values.)
const MOST_JOIN_DIGIT: u64 = 4;

const MOST_WIRE_MIDDLE: u64 = 1;

const MOST_WIRE_LAST: u64 = 8;

// angles in ten-thousandths of a degree
const HALF_TURN: i64 = 1800000;

const FULL_TURN: i64 = 3600000;

// A value that was read and keeps a test; one that does not has the test's refusal.
fn kept<T: Copy, F: FnOnce(T) -> bool>(read: Option<T>, test: F, otherwise: u8) -> Result<T, u8>
    requires { ForSome read (F.pre test) }
    ensures { MatchOption read (result ≡ Err 10) (λ x. (b : Bool) × F.post test x b × (result ≡ cond b (Ok x) (Err otherwise))) }
{
    let x = read.ok_or(Rule::Written as u8)?;
    if test(x) { Ok(x) } else { Err(otherwise) }
}

// A number within limits; beyond them it has a refusal of its own.
fn limited(n: Option<u64>, lo: u64, hi: u64, otherwise: u8) -> Result<i64, u8>
    requires { hi < 100000000000 }
    ensures { result ≡ count_val (in_range lo hi) otherwise n }
{
    Ok(kept(n, |v| within(lo, hi, v), otherwise)? as i64)
}

// E_sym: 000 to 005 or 011 to 015.
fn served(n: Option<u64>) -> Result<i64, u8>
    ensures { result ≡ count_val served_symbols 12 n }
{
    Ok(kept(
        n,
        |v| within(0, 5, v) || within(11, 15, v),
        Rule::Range as u8,
    )? as i64)
}

// E_wire: 000, or each digit within its limits.
fn is_wire_range(n: u64) -> bool
    ensures { result ≡ served_wires n }
{
    n == 0
        || n / 100 <= MOST_JOIN_DIGIT
            && n / 10 % 10 <= MOST_WIRE_MIDDLE
            && within(1, MOST_WIRE_LAST, n % 10)
}

fn served_wires(n: Option<u64>) -> Result<i64, u8>
    ensures { result ≡ count_val served_wires 12 n }
{
    Ok(kept(n, is_wire_range, Rule::Range as u8)? as i64)
}

// An angle from 0 on.
fn turned(z: i64, most: i64) -> bool
    ensures { result ≡ (le_z (pos 0) z && le_z z most) }
{
    0 <= z && z <= most
}

// The sign and limit of a decimal.
fn in_bound(bound: u64, z: i64) -> bool
    ensures { result ≡ in_bound (bound_of bound) z }
{
    match bound {
        PART_ANY_SIGN => true,
        PART_NOT_NEGATIVE => 0 <= z,
        PART_ABOVE_ZERO => 0 < z,
        PART_HALF_TURN => turned(z, HALF_TURN),
        _ => turned(z, FULL_TURN),
    }
}

fn bounded(bound: u64, r: Option<Decimal>) -> Result<i64, u8>
    ensures { result ≡ reading_val (in_bound (bound_of bound)) 11 r }
{
    let z = r.ok_or(Rule::Written as u8)?.value;
    if in_bound(bound, z) {
        Ok(z)
    } else {
        Err(Rule::Value as u8)
    }
}

// A decimal of one value alone: any other is 10.
fn exactly(n: i64, r: Option<Decimal>) -> Result<i64, u8>
    ensures { result ≡ reading_val (equal_z n) 10 r }
{
    kept(r.map(|d| d.value), |z| z == n, Rule::Written as u8)
}

// A decimal by its form.
fn measured(code: u64, r: Option<Decimal>) -> Result<i64, u8>
    ensures { result ≡ decimal_val code r }
{
    match code {
        PART_NO_ANGLE => exactly(0, r),
        PART_WHOLE_TURN => exactly(FULL_TURN, r),
        _ => bounded(code, r),
    }
}

fn numbered(i: Option<u32>, otherwise: u8) -> Result<i64, u8>
    ensures { result ≡ index_val otherwise i }
{
    i.map(i64::from).ok_or(otherwise)
}

fn layer(known: &Known<'_>, c: &[u8]) -> Result<i64, u8>
    ensures { result ≡ val_of (read_part (known_of known.now) layer_id c.now) }
{
    if is_layer_id(c) {
        numbered(index_of(known.spool, known.layers, c), Rule::Layer as u8)
    } else {
        Err(Rule::Value as u8)
    }
}

// A value that is no decimal, from all its bytes.
fn whole(code: u64, known: &Known<'_>, c: &[u8]) -> Result<i64, u8>
    ensures { result ≡ val_of (read_part (known_of known.now) (whole_of code) c.now) }
{
    match code {
        PART_FLAG => limited(fixed(c, 1), 0, 1, Rule::Value as u8),
        PART_POSITION => limited(fixed(c, 1), 1, 5, Rule::Value as u8),
        PART_COUNT => limited(count(c), 0, 999999999, Rule::Written as u8),
        PART_DAY => limited(day(c), 0, 99999999, Rule::Written as u8),
        PART_CLOCK => limited(clock(c), 0, 999999, Rule::Written as u8),
        PART_RANGE_0 => limited(fixed(c, 3), 0, 0, Rule::Range as u8),
        PART_RANGE_0_1 => limited(fixed(c, 3), 0, 1, Rule::Range as u8),
        PART_RANGE_0_2 => limited(fixed(c, 3), 0, 2, Rule::Range as u8),
        PART_RANGE_1 => limited(fixed(c, 3), 1, 1, Rule::Range as u8),
        PART_SYMBOL_RANGE => served(fixed(c, 3)),
        PART_SYMBOL_NAME => numbered(index_of(known.spool, known.symbols, c), Rule::Symbol as u8),
        PART_LAYER_ID => layer(known, c),
        PART_WIRE_RANGE => served_wires(fixed(c, 3)),
        PART_SIGN => limited(fixed(c, 1), 0, 4, Rule::Value as u8),
        PART_DIGIT => limited(fixed(c, 1), 0, 9, Rule::Value as u8),
        _ => limited(fixed(c, 4), 0, 9999, Rule::Written as u8),
    }
}

// A value from all its bytes.
pub(crate) fn single(code: u64, known: &Known<'_>, c: &[u8]) -> Result<i64, u8>
    ensures { result ≡ val_of (read_part (known_of known.now) (part_of code) c.now) }
{
    if PART_ANY_SIGN <= code {
        measured(code, decimal(c))
    } else {
        whole(code, known, c)
    }
}

// The value in front of the first comma, and where it ends.
pub(crate) fn piece(code: u64, known: &Known<'_>, c: &[u8]) -> Piece
    ensures { PieceIs (known_of known.now) code c.now result }
{
    if PART_ANY_SIGN <= code {
        let d = decimal_piece(c);
        Piece {
            val: measured(code, d.reading),
            end: d.end,
        }
    } else {
        let end = find(c, b',');
        Piece {
            val: whole(code, known, &c[..end]),
            end,
        }
    }
}
