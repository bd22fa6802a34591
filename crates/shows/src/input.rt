// Standard input, read to its end.
ghost use Rattle.std.specs.Prelude.{◌≡◌, ◌<◌, ◌≤◌, length, take, IsNone};
ghost use Rattle.std.specs.Io.KnownBytes.{Consumes, IsAtEnd};

use std::io;
use std::io::Read;

// One byte more than a spool may have: an input that is longer is answered as a spool that is (2).
pub const MOST_READ: usize = 61441;

// How many bytes stand at the front of what was lent, and why a read failed behind them, where one did.
#[derive(Drop)]
pub struct Input {
    pub bytes: usize,
    pub failed: Option<io::Error>,
}

fn ended(bytes: usize) -> Input
    ensures { result.bytes ≡ bytes }
{
    Input {
        bytes,
        failed: None,
    }
}

// Reads till the input ends, a read fails or buf is full.
pub fn read_all<R: Read>(from: &mut R, buf: &mut [u8]) -> Input
    ensures bound { result.bytes ≤ length buf.new }
    ensures bytes { Consumes (R.remaining from.old) (R.remaining from.new) (take result.bytes buf.new) }
    ensures end { IsNone result.failed → result.bytes < length buf.new → IsAtEnd (R.remaining from.new) }
{
    let mut n = 0;
    // (A read says how far it came: there is no range to go over.)
    while n < buf.len() {
        match from.read(&mut buf[n..]) {
            Ok(0) => return ended(n),
            Ok(more) => n += more,
            Err(e) => {
                return Input {
                    bytes: n,
                    failed: Some(e),
                };
            }
        }
    }
    ended(n)
}
