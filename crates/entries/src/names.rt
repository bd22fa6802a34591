// Names by their places in the spool: of symbols, and of layers.
ghost use Rattle.std.specs.Prelude.{◌≡◌, ◌≤◌, length};
ghost use Rattle.rules.specs.Lines.{bytes_at};
ghost use Rattle.entries.specs.Names.{name_in, names_in, index_from};

use leaves::bytes::same;
use rules::Span;

// The bytes of a part of the spool. A part that is none of the spool has what there is of it.
pub fn part(s: &[u8], p: Span) -> &[u8]
    ensures { result.now ≡ bytes_at s.now p }
{
    let from = s.len().min(p.at as usize);
    let rest = &s[from..];
    let len = rest.len().min(p.len as usize);
    &rest[..len]
}

// A name's place and length in one number: 65,536 is more than any place.
pub fn name_at(s: &[u8], name: u32) -> &[u8]
    ensures { result.now ≡ name_in s.now name }
{
    part(
        s,
        Span {
            at: name % 65536,
            len: name / 65536,
        },
    )
}

// Where a name stands among others.
pub fn index_of(s: &[u8], names: &[u32], key: &[u8]) -> Option<u32>
    requires { length names.now ≤ 65536 }
    ensures { result ≡ index_from 0 key.now (names_in s.now names.now) }
{
    for (i, name) in names.iter().enumerate() {
        if same(key, name_at(s, *name)) {
            return Some(i as u32);
        }
    }
    None
}
