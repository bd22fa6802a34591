// What the blocks have in common.
ghost use Rattle.std.specs.Prelude.{◌≡◌, false, ◌<◌, length, replicate};
ghost use Rattle.rules.specs.RangeClass.{digits, digits_of};
ghost use Rattle.account.specs.Account.{at_block, figure_done};

use account::{BLOCK_FIGURES, Now};
use rules::Digits;

// A three-digit value as its middle and last digit.
pub fn digits_of(n: u32) -> Digits
    ensures { result ≡ digits_of n }
{
    Digits {
        middle: (n / 10 % 10) as u8,
        last: (n % 10) as u8,
    }
}

// No digit is asked for.
pub fn no_digits() -> Digits
    ensures { result ≡ digits 0 0 }
{
    Digits { middle: 0, last: 0 }
}

// All of the marks are taken away.
pub fn unmark(marks: &mut [bool])
    ensures { marks.new ≡ replicate (length marks.old) false }
{
    marks.fill(false);
}

// Another block is open.
pub fn at_block(now: Now, block: u8, part: u8) -> Now
    ensures { result ≡ at_block now block part }
{
    Now { block, part, ..now }
}

// One more figure, and the block around it is open again.
pub fn figure_done(now: Now) -> Now
    requires { now.figures < 4294967295 }
    ensures { result ≡ figure_done now }
{
    Now {
        block: BLOCK_FIGURES,
        part: 0,
        figures: now.figures + 1,
        points: 0,
        ..now
    }
}
