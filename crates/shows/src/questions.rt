// Questions on standard input, answered one after the other: their numbers and their spools.
ghost use Rattle.std.specs.Prelude.{◌≡◌, ◌+◌, ◌*◌, ◌≤◌, length, take, IfSome};
ghost use Rattle.std.specs.Io.KnownBytes.{Consumes};

use crate::input::read_all;
use std::io::Read;

// More questions than this are not read. (A program that is proved to end must stop somewhere.)
pub const MOST_QUESTIONS: usize = 1048576;

// Two bytes, high first.
pub fn pair(high: u8, low: u8) -> usize
    ensures { result ≡ 256 * high + low }
{
    256 * high as usize + low as usize
}

// Reads a question's spool and gives its length; none where it is too long or the input ends before it.
pub fn next_spool<R: Read>(from: &mut R, len: usize, spool: &mut [u8]) -> Option<usize>
    ensures length { IfSome result (λ n. (n ≡ len) × (len ≤ length spool.new)) }
    ensures bytes { IfSome result (λ n. Consumes (R.remaining from.old) (R.remaining from.new) (take len spool.new)) }
{
    if spool.len() < len || read_all(from, &mut spool[..len]).bytes < len {
        return None;
    }
    Some(len)
}
