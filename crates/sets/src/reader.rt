// The reader.
ghost use Rattle.std.specs.Prelude.{◌≡◌, ◌+◌, ◌*◌, ◌≤◌, ◌<◌, pos, length, replicate};
ghost use Rattle.rules.specs.Answers.{read_answer, read_table};
ghost use Rattle.rules.specs.RecordTable.{width};
ghost use Rattle.sets.specs.SetReading.{nothing_now, name_behind, SetOut, Judged};

use account::{BLOCK_TOP, MOST_LAYERS, MOST_SERIALS, MOST_SYMBOLS, Now, TALLY_LENGTH, Volume};
use entries::names::part;
use groundwork::classes::class_of;
use groundwork::table::clear;
use lines::ends::first_unsound;
use lines::spool::{volume_name, volumes};
use rules::{Class, Digits, Refusal, Rule, Span, WIDTH};
use steps::read_volume;

fn nothing_yet() -> Now
    ensures { result ≡ nothing_now }
{
    Now {
        block: BLOCK_TOP,
        part: 0,
        layered: false,
        owner: 0,
        records: 0,
        figures: 0,
        points: 0,
    }
}

// The name of the volume behind the one with number i + 1; nothing behind the last.
fn name_behind(s: &[u8], places: [u32; 12], count: usize, i: usize) -> &[u8]
    requires { (count ≤ 12) × (i < count) }
    ensures { result.now ≡ name_behind s.now places count i }
{
    if count <= i + 1 {
        return &s[..0];
    }
    volume_name(s, places[i + 1])
}

// The volumes one after the other. Their records go into a table of zeros that has room for so many; where `t` is shorter, they are counted
// and not kept.
fn read_set(s: &[u8], class: Class, limit: usize, t: &mut [i64]) -> Result<u32, Refusal>
    requires { (t.old ≡ replicate (length t.old) (pos 0)) × (limit + 2 ≤ 18446744073709551615) }
    ensures { SetOut class s.now limit t.old t.new result }
{
    let l = volumes(s);
    let count = l.count as usize;
    if count == 0 {
        return Err(Refusal {
            number: Rule::Spool as u8,
            volume: 0,
            line: 0,
        });
    }
    let unsound = first_unsound(s, l);
    if unsound != 0 {
        return Err(Refusal {
            number: Rule::Ends as u8,
            volume: unsound as u8,
            line: 0,
        });
    }
    let mut tally = [0u32; TALLY_LENGTH];
    let mut symbols = [0u32; MOST_SYMBOLS];
    let mut layers = [0u32; MOST_LAYERS];
    let mut serials = [0u64; MOST_SERIALS];
    let mut used_all = [false; MOST_LAYERS];
    let places = l.places;
    let lengths = l.lengths;
    let mut here = nothing_yet();
    for i in 0..count {
        let following = name_behind(s, places, count, i);
        let start = places[i];
        let body = part(
            s,
            Span {
                at: start,
                len: lengths[i],
            },
        );
        let v = Volume {
            number: i as u8 + 1,
            at: start,
        };
        here = read_volume(
            s,
            body,
            following,
            class,
            v,
            here,
            &mut tally,
            &mut symbols,
            &mut layers,
            &mut serials,
            &mut used_all,
            limit,
            t,
        )?;
    }
    Ok(here.records as u32)
}

// A spool, a range class with its wire part, and a lent table: the answer, and the records in the table. Refused, the table is all zeros; accepted, it is zero
// behind the last record, whatever it held before.
pub fn read(s: &[u8], class: u64, wire: u64, t: &mut [i64]) -> Result<u32, Refusal>
    ensures { (result ≡ read_answer class wire (length t.old) s.now) × (t.new ≡ read_table class wire (length t.old) s.now) }
{
    let limit = t.len() / WIDTH;
    clear(t);
    let Some(c) = class_of(class, wire) else {
        return Err(Refusal {
            number: Rule::Class as u8,
            volume: 0,
            line: 0,
        });
    };
    // no `?`: the table is cleared first
    match read_set(s, c, limit, t) {
        Ok(n) => Ok(n),
        Err(f) => {
            clear(t);
            Err(f)
        }
    }
}

// A spool, a range class with its wire part, and a number of records: the answer of a reader that is lent a table for so many. They are counted
// and not kept, so that whoever asks only for the answer needs no room for a table.
pub fn check(s: &[u8], class: u64, wire: u64, records: u32) -> Result<u32, Refusal>
    ensures { result ≡ read_answer class wire (records * width) s.now }
{
    let Some(c) = class_of(class, wire) else {
        return Err(Refusal {
            number: Rule::Class as u8,
            volume: 0,
            line: 0,
        });
    };
    let mut nothing = [0i64; 1];
    read_set(s, c, records as usize, &mut nothing)
}

// More records than any spool has: a line is two bytes long at least, and takes two records at most.
const MOST_RECORDS: usize = 65536;

// A spool at the full class, whose records are counted and not kept: how many they are, or the refusal.
pub(crate) fn judge(s: &[u8]) -> Result<u32, Refusal>
    ensures { Judged s.now result }
{
    let mut nothing = [0i64; 1];
    let full = Class {
        symbols: Digits { middle: 1, last: 5 },
        wires: Digits { middle: 1, last: 8 },
    };
    read_set(s, full, MOST_RECORDS, &mut nothing)
}
