// Rule 3: the ends of a volume's lines.
ghost use Rattle.std.specs.Prelude.{◌≡◌, ◌+◌, ◌<◌, ◌≤◌, ◌&&◌, ◌==◌, true, fold, length, slice_index, take, drop};
ghost use Rattle.rules.specs.Base.{is_some};
ghost use Rattle.rules.specs.Spool.{lines_of};
ghost use Rattle.leaves.specs.Bytes.{up_to};
ghost use Rattle.lines.specs.LineEnds.{end_byte, plain_run, high_byte, NoEnd, Stands, lf_at, first_unsound};

use crate::{CR, Layout, MOST_VOLUMES};

const MOST_IN_LINE: usize = 512;

const LF: u8 = 10;

const END: u8 = 26;

// CR, LF or 1A: nearly all bytes are greater.
fn is_end(b: u8) -> bool
    ensures { result ≡ end_byte b }
{
    b <= END && matches!(b, CR | LF | END)
}

// Whether all of some bytes are greater. The `&` has no branch, so that the processor tests eight of them at once.
fn all_above(s: &[u8]) -> bool
    ensures { result ≡ fold (λ high b. high && high_byte b) true s.now }
{
    s.iter().fold(true, |high, b| high & (END < *b))
}

// Over such bytes from a place on, eight at a time. (The step is eight and no byte is looked at twice: a `for` has no such step.)
fn skip_eights(s: &[u8], from: usize) -> usize
    requires { from ≤ length s.now }
    ensures { NoEnd s.now from result }
{
    let mut i = from;
    while 8 <= s.len() - i && all_above(&s[i..i + 8]) {
        i += 8;
    }
    i
}

// Where the first of these bytes stands from a place on. (A `position` here and below is 12 to 30 hundredths slower.)
fn end_from(s: &[u8], from: usize) -> Option<usize>
    requires { from ≤ length s.now }
    ensures { Stands result (from + plain_run (drop from s.now)) (length s.now) }
{
    for i in skip_eights(s, from)..s.len() {
        if is_end(s[i]) {
            return Some(i);
        }
    }
    None
}

// Where the first CR stands from a place on.
pub(crate) fn cr_from(s: &[u8], from: usize) -> Option<usize>
    requires { from ≤ length s.now }
    ensures { Stands result (from + length (up_to 13 (drop from s.now))) (length s.now) }
{
    for i in skip_eights(s, from)..s.len() {
        if s[i] == CR {
            return Some(i);
        }
    }
    None
}

// A volume's last byte: 1A with nothing behind it, where a line would start.
fn last_at(s: &[u8], from: usize, e: usize) -> bool
    requires { e < length s.now }
    ensures { result ≡ (slice_index s.now e == 26 && e == from && e + 1 == length s.now) }
{
    s[e] == END && e == from && e + 1 == s.len()
}

fn lf_at(s: &[u8], i: usize) -> bool
    ensures { result ≡ lf_at i s.now }
{
    i < s.len() && s[i] == LF
}

// Whether a volume's bytes are lines of at most 512 bytes, each ended by CR LF, and then one byte 1A.
pub fn sound_lines(s: &[u8]) -> bool
    ensures { result ≡ is_some (lines_of s.now) }
{
    let mut i = 0;
    while let Some(e) = end_from(s, i) {
        if s[e] != CR {
            return last_at(s, i, e);
        }
        let next = e + 1;
        if MOST_IN_LINE < e - i || !lf_at(s, next) {
            return false;
        }
        i = next + 1;
    }
    false
}

// The same of so many bytes of the spool from a place on; of all there are, where there are fewer.
fn sound_at(s: &[u8], place: u32, size: u32) -> bool
    ensures { result ≡ is_some (lines_of (take size (drop place s.now))) }
{
    let from = place as usize;
    if s.len() <= from {
        return false;
    }
    let to = s.len().min(from + size as usize);
    sound_lines(&s[from..to])
}

// The number, from 1, of the first volume whose lines break rule 3; 0 where none does, as `first_unsound` of the specs has it.
pub fn first_unsound(s: &[u8], l: Layout) -> u32
    ensures { result ≡ first_unsound s.now l }
{
    for i in 0..MOST_VOLUMES.min(l.count as usize) {
        if !sound_at(s, l.places[i], l.lengths[i]) {
            return i as u32 + 1;
        }
    }
    0
}
