// The names of volumes.
ghost use Rattle.std.specs.List.{list_all, prefix_len};
ghost use Rattle.std.specs.Prelude.{◌≡◌, ◌==◌, map, ◌+◌, ◌≤◌, ◌<◌, length, get_or, drop};
ghost use Rattle.rules.specs.Base.{same as sameBytes, among, distinct};
ghost use Rattle.rules.specs.Spool.{name_byte, good_name};
ghost use Rattle.lines.specs.VolumeNames.{raw_name, Ranged};

use crate::SPACE;
use leaves::bytes::same;

fn name_byte(b: u8) -> bool
    ensures { result ≡ name_byte b }
{
    matches!(b, b'A'..=b'Z' | b'0'..=b'9')
}

// How many bytes of a name stand in front.
fn letters_in(n: &[u8]) -> usize
    ensures { result ≡ prefix_len name_byte n.now }
{
    n.iter().take_while(|b| name_byte(**b)).count()
}

fn only_spaces(n: &[u8]) -> bool
    ensures { result ≡ list_all (λ b. b == 32) n.now }
{
    n.iter().all(|b| *b == SPACE)
}

// "8 name bytes (1 to 8 of A-Z, 0-9, then spaces)"
pub(crate) fn good_name(n: &[u8]) -> bool
    requires { length n.now ≡ 8 }
    ensures { result ≡ good_name n.now }
{
    let k = letters_in(n);
    k != 0 && only_spaces(&n[k..])
}

// The eight name bytes of the volume whose first byte stands at a place.
fn name_at(s: &[u8], place: u32) -> &[u8]
    requires { (12 ≤ place) × (place ≤ length s.now) }
    ensures { result.now ≡ raw_name s.now place }
{
    let from = place as usize - 10;
    let to = from + 8;
    &s[from..to]
}

fn same_name(s: &[u8], p: u32, q: u32) -> bool
    requires { ((12 ≤ p) × (p ≤ length s.now)) × ((12 ≤ q) × (q ≤ length s.now)) }
    ensures { result ≡ sameBytes (raw_name s.now p) (raw_name s.now q) }
{
    same(name_at(s, p), name_at(s, q))
}

// Whether the name of the volume i stands again behind it.
fn name_again(s: &[u8], places: &[u32], i: usize) -> bool
    requires { (i < length places.now) × Ranged s.now places.now }
    ensures { result ≡ among (raw_name s.now (get_or places.now i 0)) (map (raw_name s.now) (drop (i + 1) places.now)) }
{
    for j in i + 1..places.len() {
        if same_name(s, places[i], places[j]) {
            return true;
        }
    }
    false
}

// "Names in the spool differ"
pub(crate) fn names_differ(s: &[u8], places: &[u32]) -> bool
    requires { Ranged s.now places.now }
    ensures { result ≡ distinct (map (raw_name s.now) places.now) }
{
    for i in 0..places.len() {
        if name_again(s, places, i) {
            return false;
        }
    }
    true
}
