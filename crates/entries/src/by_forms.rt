// By which forms the values of a content are read: those of its row, but for a circle in a symbol, which has an arc's seven values or a whole
// circle's six. They are chosen here, so that one loop reads them all.
ghost use Rattle.std.specs.Prelude.{◌≡◌, ◌≤◌, length};
ghost use Rattle.rules.specs.Base.{split};
ghost use Rattle.entries.specs.Forms.{forms_for};

use crate::Forms;
use tables::{ACROSS_ARC, ARC_FORMS, HOLDS_CIRCLE, Row, WHOLE_FORMS};

const WHOLE_VALUES: usize = 6;

const WHOLE: Forms = Forms {
    parts: WHOLE_FORMS,
    more: 5,
    across: 0,
    turnless: true,
};

const ARC: Forms = Forms {
    parts: ARC_FORMS,
    more: 6,
    across: ACROSS_ARC,
    turnless: false,
};

// How many values stand between commas.
pub(crate) fn values_in(c: &[u8]) -> usize
    requires { length c.now ≤ 61440 }
    ensures { result ≡ length (split 44 c.now) }
{
    1 + c.iter().filter(|b| **b == b',').count()
}

pub(crate) fn forms_for(row: Row, c: &[u8]) -> Forms
    requires { length c.now ≤ 61440 }
    ensures { result ≡ forms_for row (length (split 44 c.now)) }
{
    if row.kind != HOLDS_CIRCLE {
        Forms {
            parts: row.parts,
            more: row.count,
            across: row.across,
            turnless: false,
        }
    } else if values_in(c) == WHOLE_VALUES {
        WHOLE
    } else {
        ARC
    }
}
