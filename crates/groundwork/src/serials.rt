// Own serial numbers and their partners, and the layers in use.
ghost use Rattle.std.specs.Prelude.{◌≡◌, true, false, ◌<◌, ◌≤◌, length, MatchResult};
ghost use Rattle.rules.specs.Base.{has_number, all};
ghost use Rattle.rules.specs.Numbers.{read_count};
ghost use Rattle.rules.specs.RangeClass.{knows_serials};
ghost use Rattle.entries.specs.Shapes.{rest_in};
ghost use Rattle.account.specs.Numbering.{tally_length};
ghost use Rattle.account.specs.SerialNumbers.{own_numbers, kept_number, own_of, span_of, owns_of, content_at, ascending, place_for, serial_count, kept_in, SerialLine, number_in, partners_in, partners_at, partners_found, tests_for, partners_met};

use crate::blocks::digits_of;
use crate::classes::reaches;
use account::{BLOCK_ENDED, Now, Step, TALLY_SERIALS, TALLY_SYMBOL_RANGE, TALLY_WIRE_RANGE};
use entries::Rest;
use entries::names::part;
use leaves::numbers::serial;
use rules::{Class, Digits, Rule, Span};

// A number is kept with the place and the length of the content that it was read from: no place is so great, and no content of a serial so
// long. (specs/SerialNumbers of account has them under the same names.)
const PLACES: u32 = 65536;

const LENGTHS: u32 = 2048;

const SPANS: u64 = 134217728;

fn own_of(kept: u64) -> u64
    ensures { result ≡ own_of kept }
{
    kept / SPANS
}

fn kept_number(own: u64, at: Span) -> u64
    requires { own < own_numbers }
    ensures { result ≡ kept_number own at }
{
    own * SPANS + ((at.at % PLACES * LENGTHS) as u64 + (at.len % LENGTHS) as u64)
}

// Where an own number stands, or where it would stand.
fn search(kept: &[u64], own: u64) -> Result<usize, usize>
    requires { ascending kept.now ≡ true }
    ensures { MatchResult result (λ _. has_number own (owns_of kept.now) ≡ true) (λ p. (p ≤ length kept.now) × (p ≡ place_for own kept.now) × (has_number own (owns_of kept.now) ≡ false)) }
{
    kept.binary_search_by_key(&own, |k| own_of(*k))
}

fn has_own(kept: &[u64], own: u64) -> bool
    requires { ascending kept.now ≡ true }
    ensures { result ≡ has_number own (owns_of kept.now) }
{
    search(kept, own).is_ok()
}

// "Own numbers differ as numbers over the set": a new one takes its place among those that are kept. In the common case it is the greatest, and
// nothing moves.
pub fn keep_own(here: Now, own: u64, at: Span, tally: &mut [u32], serials: &mut [u64]) -> Step
    requires { (length tally.old ≡ tally_length) × (serial_count tally.old < length serials.old) × (serial_count tally.old < 4294967295) × (own < own_numbers) × (ascending (kept_in tally.old serials.old) ≡ true) }
    ensures { SerialLine here own at tally.old tally.new serials.old serials.new result }
{
    let count = tally[TALLY_SERIALS] as usize;
    let Err(place) = search(&serials[..count], own) else {
        return Step::Stop(Rule::Serial as u8);
    };
    serials.copy_within(place..count, place + 1);
    serials[place] = kept_number(own, at);
    tally[TALLY_SERIALS] = (count + 1) as u32;
    Step::Go(here)
}

// Where the content of a line stands.
pub fn content_at(s: &[u8], rest: Rest) -> Span
    ensures { result ≡ content_at (rest_in s.now rest) }
{
    match rest {
        Rest::Brace => Span { at: 0, len: 0 },
        Rest::Equals(p) => Span {
            at: p.at,
            len: part(s, p).len() as u32,
        },
    }
}

// Serials are known from middle digit 1 on.
fn knows_serials(d: Digits) -> bool
    ensures { result ≡ knows_serials d }
{
    reaches(d, Digits { middle: 1, last: 0 })
}

// File and class both know serials of symbols and of wires.
fn tests_partners(class: Class, tally: &[u32]) -> bool
    requires { length tally.now ≡ tally_length }
    ensures { result ≡ tests_for class tally.now }
{
    knows_serials(digits_of(tally[TALLY_SYMBOL_RANGE]))
        && knows_serials(digits_of(tally[TALLY_WIRE_RANGE]))
        && knows_serials(class.symbols)
        && knows_serials(class.wires)
}

// One partner is found, or the piece is none.
fn piece_met(piece: &[u8], kept: &[u64]) -> bool
    requires { ascending kept.now ≡ true }
    ensures { result ≡ all (λ n. has_number n (owns_of kept.now)) (number_in (read_count 10 piece.now)) }
{
    serial(piece).is_none_or(|n| has_own(kept, n))
}

// The partners of one content, the pieces behind its first comma.
fn content_met(c: &[u8], kept: &[u64]) -> bool
    requires { ascending kept.now ≡ true }
    ensures { result ≡ all (λ n. has_number n (owns_of kept.now)) (partners_in c.now) }
{
    c.split(|b| *b == b',')
        .skip(1)
        .all(|piece| piece_met(piece, kept))
}

fn span_of(kept: u64) -> Span
    ensures { result ≡ span_of kept }
{
    Span {
        at: (kept % SPANS / LENGTHS as u64) as u32,
        len: (kept % LENGTHS as u64) as u32,
    }
}

// The partners of one number that is kept.
fn number_met(s: &[u8], kept: &[u64], number: u64) -> bool
    requires { ascending kept.now ≡ true }
    ensures { result ≡ all (λ n. has_number n (owns_of kept.now)) (partners_at s.now number) }
{
    content_met(part(s, span_of(number)), kept)
}

// Every partner of every number that is kept is one of them.
fn all_met(s: &[u8], kept: &[u64]) -> bool
    requires { ascending kept.now ≡ true }
    ensures { result ≡ partners_found s.now kept.now }
{
    kept.iter().all(|k| number_met(s, kept, *k))
}

// "21, partner not found, at EOF after 17": asked of a line that ended the set.
pub fn partners_met(did: Step, class: Class, s: &[u8], tally: &[u32], serials: &[u64]) -> Step
    requires { (length s.now ≤ 61440) × (length tally.now ≡ tally_length) × (serial_count tally.now ≤ length serials.now) × (ascending (kept_in tally.now serials.now) ≡ true) }
    ensures { result ≡ partners_met class s.now tally.now serials.now did }
{
    let Step::Go(n) = did else {
        return did;
    };
    let kept = &serials[..tally[TALLY_SERIALS] as usize];
    if n.block == BLOCK_ENDED && tests_partners(class, tally) && !all_met(s, kept) {
        return Step::Stop(Rule::Partner as u8);
    }
    did
}

// Every one is marked.
pub fn all_marked(marks: &[bool]) -> bool
    ensures { result ≡ all (λ b. b) marks.now }
{
    marks.iter().all(|m| *m)
}
