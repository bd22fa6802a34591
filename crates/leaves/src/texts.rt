// Free texts: how many bytes of which set each may have.
ghost use Rattle.std.specs.Prelude.{◌≡◌, ◌&&◌, leb, length, get_or};
ghost use Rattle.rules.specs.Base.{all};
ghost use Rattle.rules.specs.Values.{byte_in};
ghost use Rattle.leaves.specs.Bytes.{bytes_of};
ghost use Rattle.leaves.specs.Texts.{text_rules, no_text};

use crate::TextRule;
use crate::bytes::all_in;
use rules::TEXT_LIMITS;

// The free-text keys in the order of TEXT_LIMITS, which is the rules' own table: the number of each one's set of bytes. The tables' rows
// have theirs from here, so that each stands once.
pub const TEXT_SETS: [u8; 13] = [1, 1, 1, 1, 0, 0, 3, 0, 0, 0, 0, 0, 0];

// The rule of a free-text key, by its number in the order of TEXT_LIMITS. There is none from 13 on.
pub fn text_rule(key: u8) -> TextRule
    ensures { result ≡ get_or text_rules key no_text }
{
    if 12 < key {
        return TextRule { most: 0, set: 0 };
    }
    let k = key as usize;
    TextRule {
        most: TEXT_LIMITS[k],
        set: TEXT_SETS[k],
    }
}

// At most so many bytes, all of the set.
pub fn fits(c: &[u8], most: u8, set: u8) -> bool
    ensures { result ≡ (all (byte_in (bytes_of set)) c.now && leb (length c.now) most) }
{
    c.len() <= most as usize && all_in(c, set)
}
