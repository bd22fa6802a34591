// How the pen goes on.
ghost use Rattle.std.specs.Prelude.{◌≡◌, cond, ◌+◌, ◌≤◌};
ghost use Rattle.pens.specs.Moves.{moved, begun, among_figures};
ghost use Rattle.pens.specs.Noting.{forgotten};

use crate::Pen;
use account::BLOCK_FIGURES;

// Another block is open, n bytes further on.
pub fn at_block(pen: Pen, n: usize, block: u8, part: u8) -> Pen
    requires { pen.at + n ≤ 18446744073709551615 }
    ensures { result ≡ moved pen n block part }
{
    Pen {
        block,
        part,
        at: pen.at + n,
        ..pen
    }
}

// A block whose inner lines are written before its own begins behind its first line.
pub(crate) fn begun(pen: Pen, n: usize, block: u8) -> Pen
    requires { pen.at + n ≤ 18446744073709551615 }
    ensures { result ≡ begun pen n block }
{
    let at = pen.at + n;
    Pen {
        block,
        part: 0,
        start: at,
        at,
        ..pen
    }
}

pub(crate) fn among_figures(pen: Pen, n: usize, layered: bool) -> Pen
    requires { pen.at + n ≤ 18446744073709551615 }
    ensures { result ≡ among_figures pen n layered }
{
    Pen {
        block: BLOCK_FIGURES,
        part: 0,
        layered,
        at: pen.at + n,
        ..pen
    }
}

// Of two blocks or tables the one of a layer's figures, or the one of a symbol's.
pub(crate) fn by_home(layered: bool, in_layer: u8, in_symbol: u8) -> u8
    ensures { result ≡ cond layered in_layer in_symbol }
{
    if layered { in_layer } else { in_symbol }
}

// All notes are taken away.
pub(crate) fn forget(notes: &mut [u32])
    ensures { notes.new ≡ forgotten notes.old }
{
    notes.fill(0);
}
