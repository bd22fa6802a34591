// The keys of a wire that repeat, and its texts: how often each stands and the first ones go to its two records, from the front of the scratch.
ghost use Rattle.std.specs.Prelude.{◌≡◌, ◌+◌, ◌*◌, ◌≤◌, ◌<◌, pos, length, get_or};
ghost use Rattle.rules.specs.RecordTable.{width, shelf};
ghost use Rattle.account.specs.WireLines.{like_first_num, group_agrees, shown_more, shelved, shelf_of, text_from, text_shelf, CountGiven, ShelvesReady};
ghost use Rattle.account.specs.Numbering.{scratch_length};

use account::{WIRE_EARTH, WIRE_NUMS, WIRE_POWER};
use rules::WIDTH;

// The rows of the keys that repeat. (`first_group_row` and the following.)
pub(crate) const ROW_DIREC: u8 = 2;

const ROW_PIEND: u8 = 3;

const ROW_NUM: u8 = 4;

// "given"
const GIVEN: i64 = 2;

// "all with equal earth and power": the line's are the first two numbers of the scratch.
fn like_first_num(t: &[i64]) -> bool
    requires { length t.now ≡ scratch_length }
    ensures { result ≡ like_first_num t.now }
{
    t[WIRE_NUMS] == 0 || (t[WIRE_EARTH] == t[0] && t[WIRE_POWER] == t[1])
}

pub(crate) fn group_agrees(row: u8, t: &[i64]) -> bool
    requires { length t.now ≡ scratch_length }
    ensures { result ≡ group_agrees row t.now }
{
    row != ROW_NUM || like_first_num(t)
}

// What a wire's records show of a key that repeats, or of its texts: where the count stands, the first ones behind it, and where the state; how
// many numbers each has, and how many of them are shown.
#[derive(Clone, Copy)]
struct Shelf {
    place: usize,
    state: usize,
    wide: usize,
    shown: usize,
}

const DIRECS: Shelf = Shelf {
    place: 6,
    state: 26,
    wide: 4,
    shown: 2,
};

const PIENDS: Shelf = Shelf {
    place: 15,
    state: 27,
    wide: 3,
    shown: 1,
};

const NUMS: Shelf = Shelf {
    place: 19,
    state: 28,
    wide: 5,
    shown: 1,
};

const TEXTS: Shelf = Shelf {
    place: 37,
    state: 58,
    wide: 10,
    shown: 1,
};

// The numbers at `from` are shown where the shelf has room for one more.
fn show_more(from: usize, on: Shelf, count: usize, t: &mut [i64])
    requires { (length t.old ≡ scratch_length) × (from + on.wide ≤ width) × (width + on.place + 1 + on.shown * on.wide ≤ scratch_length) }
    ensures { t.new ≡ shown_more from (shelf on.place 0 on.wide on.shown) count t.old }
{
    if count < on.shown {
        let place = WIDTH + on.place + 1 + count * on.wide;
        t.copy_within(from..from + on.wide, place);
    }
}

// One more: it is shown where there is room, it is counted, and the front of the scratch is zeros again.
fn shelve(from: usize, on: Shelf, t: &mut [i64])
    requires { (length t.old ≡ scratch_length) × CountGiven (get_or t.old (width + on.place) (pos 0)) × (from + on.wide ≤ width) × (width + on.place + 1 + on.shown * on.wide ≤ scratch_length) × (on.state < 64) }
    ensures { t.new ≡ shelved from (shelf on.place on.state on.wide on.shown) t.old }
{
    let count = t[WIDTH + on.place] as usize;
    show_more(from, on, count, t);
    t[WIDTH + on.place] = (count + 1) as i64;
    t[WIDTH + on.state] = GIVEN;
    t[0..WIDTH].fill(0);
}

// A line of a key that repeats, whose values stand at the front.
pub(crate) fn shelve_group(row: u8, t: &mut [i64])
    requires { (2 ≤ row) × (row ≤ 4) × ShelvesReady t.old }
    ensures { t.new ≡ shelved 0 (shelf_of row) t.old }
{
    match row {
        ROW_DIREC => shelve(0, DIRECS, t),
        ROW_PIEND => shelve(0, PIENDS, t),
        _ => shelve(0, NUMS, t),
    }
}

// A text that has closed, whose record stands at the front: ten of its numbers are shown.
pub(crate) fn shelve_text(t: &mut [i64])
    requires { ShelvesReady t.old }
    ensures { t.new ≡ shelved text_from text_shelf t.old }
{
    shelve(4, TEXTS, t)
}
