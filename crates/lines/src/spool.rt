// The volumes of a spool.
ghost use Rattle.std.specs.Prelude.{◌≡◌, ◌≤◌, length};
ghost use Rattle.rules.specs.Spool.{volumes_of};
ghost use Rattle.lines.specs.VolumeNames.{name_at};
ghost use Rattle.lines.specs.VolumePlaces.{head_in, no_layout, layout_of, walked};

use crate::names::{good_name, names_differ};
use crate::{Layout, MOST_BYTES, MOST_VOLUMES, SPACE};
use leaves::bytes::find;

const HEAD_BYTES: usize = 12;

// The head that the bytes start with: mark, name, and a length that the bytes behind it have.
pub fn head_of(s: &[u8]) -> Option<u32>
    ensures { result ≡ head_in s.now }
{
    if s.len() < HEAD_BYTES || !s.starts_with(b"VP") || !good_name(&s[2..10]) {
        return None;
    }
    let n = s[10] as u32 * 256 + s[11] as u32;
    if s.len() - HEAD_BYTES < n as usize {
        return None;
    }
    Some(n)
}

fn no_layout() -> Layout
    ensures { result ≡ no_layout }
{
    Layout {
        count: 0,
        places: [0; 12],
        lengths: [0; 12],
    }
}

// The volumes one behind the other, whatever their names.
fn walk(s: &[u8]) -> Layout
    requires { length s.now ≤ 61440 }
    ensures { result ≡ layout_of (walked s.now) }
{
    let mut places = [0u32; 12];
    let mut lengths = [0u32; 12];
    let mut count = 0;
    let mut at = 0;
    // (A volume says where the next one stands: there is no range to go over.)
    while at < s.len() {
        if count == MOST_VOLUMES {
            return no_layout();
        }
        let Some(n) = head_of(&s[at..]) else {
            return no_layout();
        };
        let body = at + HEAD_BYTES;
        places[count] = body as u32;
        lengths[count] = n;
        count += 1;
        at = body + n as usize;
    }
    Layout {
        count: count as u32,
        places,
        lengths,
    }
}

// The layout of a spool; none where refusal 2 holds.
pub fn volumes(s: &[u8]) -> Layout
    ensures { result ≡ layout_of (volumes_of s.now) }
{
    if s.is_empty() || MOST_BYTES < s.len() {
        return no_layout();
    }
    let l = walk(s);
    if names_differ(s, &l.places[..l.count as usize]) {
        return l;
    }
    no_layout()
}

// The name of the volume whose first byte stands at a place, without its spaces; nothing where that is no volume's place.
pub fn volume_name(s: &[u8], place: u32) -> &[u8]
    ensures { result.now ≡ name_at s.now place }
{
    let at = place as usize;
    if at < HEAD_BYTES || s.len() < at {
        return &s[..0];
    }
    let from = at - 10;
    let name = &s[from..from + 8];
    &name[..find(name, SPACE)]
}
