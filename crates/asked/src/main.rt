// Answers the questions on standard input, one after the other, and prints at the end how many they were. The byte in front of a question
// says what is asked (a module for each); the rest of its frame is the same for all, that of tests/reference (README.md there): a class,
// its wire part, the lengths of a table and of an output to be lent, the length of a spool, and the spool. tools/frames.py frames them.
#![tactic(auto)]

ghost use Rattle.std.specs.Prelude.{◌≡◌, ◌+◌, ◌*◌, ⊤};

mod comparing;
mod lent;
mod listing;
mod rewriting;

use shows::input::read_all;
use shows::questions::{MOST_QUESTIONS, next_spool, pair};
use std::io;
use std::io::{Read, Write};

// What is asked: a spool's records, listed; its fixed form, read back and rewritten; what reader, check and rewriter answer, in the
// reference's line.
#[derive(Clone, Copy, Debug, PartialEq, Eq)]
enum Asked {
    List,
    Rewrite,
    Compare,
}

// The byte asks for nothing that is known.
#[derive(Clone, Copy, Debug, PartialEq, Eq)]
struct NothingKnown;

impl TryFrom<u8> for Asked {
    type Error = NothingKnown;

    ghost try_from_gives = { λ _ _. ⊤ };

    fn try_from(byte: u8) -> Result<Self, NothingKnown> {
        match byte {
            b'l' => Ok(Asked::List),
            b'w' => Ok(Asked::Rewrite),
            b'c' => Ok(Asked::Compare),
            _ => Err(NothingKnown),
        }
    }
}

// What is asked, the class, the wire part, three lengths.
const HEAD: usize = 15;

// The length that says: the spool of the question before, whatever that one asked.
const SAME_SPOOL: usize = 4294967295;

// A question that asks for more room than this ends the program: its answer is then missing, and the count at the end is another.
const MOST_SPOOL: usize = 1048576;

const MOST_TABLE: usize = 131072;

const MOST_OUT: usize = 65536;

// Four bytes, high first.
fn number(a: u8, b: u8, c: u8, d: u8) -> usize
    ensures { result ≡ 65536 * (256 * a + b) + (256 * c + d) }
{
    65536 * pair(a, b) + pair(c, d)
}

// The front end that is asked for: its class, and the class's wire part.
#[derive(Clone, Copy)]
pub struct Front {
    pub cls: u64,
    pub wire: u64,
}

// What stands before a question's spool.
#[derive(Clone, Copy)]
struct Head {
    what: u8,
    front: Front,
    numbers: usize,
    bytes: usize,
    spool: usize,
}

// The next question's head, where there is one.
fn next_head<R: Read>(from: &mut R) -> Option<Head> {
    let mut head = [0u8; HEAD];
    if read_all(from, &mut head).bytes < HEAD {
        return None;
    }
    Some(Head {
        what: head[0],
        front: Front {
            cls: u64::from(head[1]),
            wire: u64::from(head[2]),
        },
        numbers: number(head[3], head[4], head[5], head[6]),
        bytes: number(head[7], head[8], head[9], head[10]),
        spool: number(head[11], head[12], head[13], head[14]),
    })
}

// The length of the question's spool, which is read where it is not the one before; none where there is no room for it or it ends too soon.
fn spool_length<R: Read>(
    from: &mut R,
    len: usize,
    before: usize,
    spool: &mut [u8],
) -> Option<usize> {
    if len == SAME_SPOOL {
        return Some(before);
    }
    next_spool(from, len, spool)
}

// Prints the answer.
fn answer<W: Write>(
    to: &mut W,
    what: Asked,
    front: Front,
    spool: &[u8],
    table: &mut [i64],
    out: &mut [u8],
) -> io::Result<()> {
    match what {
        Asked::List => listing::list(to, spool, front, table),
        Asked::Rewrite => rewriting::rewrite_twice(to, spool, out),
        Asked::Compare => comparing::compare(to, spool, front, table, out),
    }
}

// Reads a question, answers it, and gives the length of its spool; none where there is no question, no room for it, or nothing known is asked.
fn question<R: Read, W: Write>(
    from: &mut R,
    to: &mut W,
    before: usize,
    spool: &mut [u8],
    table: &mut [i64],
    out: &mut [u8],
) -> io::Result<Option<usize>> {
    let Some(head) = next_head(from) else {
        return Ok(None);
    };
    let numbers = head.numbers;
    let bytes = head.bytes;
    let Some(len) = spool_length(from, head.spool, before, spool) else {
        return Ok(None);
    };
    if spool.len() < len || table.len() < numbers || out.len() < bytes {
        return Ok(None);
    }
    let Ok(what) = Asked::try_from(head.what) else {
        return Ok(None);
    };
    answer(
        to,
        what,
        head.front,
        &spool[..len],
        &mut table[..numbers],
        &mut out[..bytes],
    )?;
    Ok(Some(len))
}

fn show_count<W: Write>(to: &mut W, asked: usize) -> io::Result<()> {
    writeln!(to, "{asked} questions")
}

fn main(rt: HostRuntime) -> io::Result<()> {
    let mut spool = [0u8; MOST_SPOOL];
    let mut table = [0i64; MOST_TABLE];
    let mut out = [0u8; MOST_OUT];
    let mut from = rt.stdin();
    let mut to = rt.stdout();
    let mut len = 0;
    for asked in 0..MOST_QUESTIONS {
        let next = question(&mut from, &mut to, len, &mut spool, &mut table, &mut out)?;
        let Some(read) = next else {
            return show_count(&mut to, asked);
        };
        len = read;
    }
    show_count(&mut to, MOST_QUESTIONS)
}
