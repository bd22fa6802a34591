ghost use Rattle.std.specs.Prelude.{◌+◌, ◌≤◌, ◌≡◌, ◌||◌, length};
ghost use Rattle.rules.specs.Base.{all, same, within};
ghost use Rattle.rules.specs.Lines.{single_byte, lead_byte, trail_byte, allowed};
ghost use Rattle.rules.specs.Numbers.{is_digit};
ghost use Rattle.rules.specs.Values.{capital, letters_and_digits, telephone, circuit_bytes, is_letter, byte_in, is_layer_id};
ghost use Rattle.leaves.specs.Bytes.{half, word, up_to, bytes_of, may_stand, starts_pair, is_layer_letter};

// Four bytes at once, as one number: two such numbers are equal only if all four bytes are. `from_le_bytes` would want them as an array,
// byte by byte too.
fn half(s: &[u8], i: usize) -> u64
    requires { i + 4 ≤ length s.now }
    ensures { result ≡ half s.now i }
{
    s[i] as u64 + 256 * (s[i + 1] as u64 + 256 * (s[i + 2] as u64 + 256 * s[i + 3] as u64))
}

// Eight bytes at once, in the same way.
fn word(s: &[u8], i: usize) -> u64
    requires { i + 8 ≤ length s.now }
    ensures { result ≡ word s.now i }
{
    half(s, i) + 4294967296 * half(s, i + 4)
}

// Byte by byte: `a == b` takes twice as long at keys, whose bytes are those of the code.
fn same_bytes(a: &[u8], b: &[u8]) -> bool
    requires { length a.now ≡ length b.now }
    ensures { result ≡ same a.now b.now }
{
    for i in 0..a.len() {
        if a[i] != b[i] {
            return false;
        }
    }
    true
}

// Four to eight bytes: the first four and the last four are all of them, some of them twice.
fn same_halves(a: &[u8], b: &[u8]) -> bool
    requires a_len { length a.now ≡ length b.now }
    requires in_bounds { 4 ≤ length a.now }
    requires a_len_bound { length a.now ≤ 8 }
    ensures { result ≡ same a.now b.now }
{
    let last = a.len() - 4;
    half(a, last) == half(b, last) && half(a, 0) == half(b, 0)
}

// Eight bytes and more: the last eight first, as names that are counted differ there. The words before them may reach into them.
fn same_words(a: &[u8], b: &[u8]) -> bool
    requires a_len { length a.now ≡ length b.now }
    requires in_bounds { 8 ≤ length a.now }
    ensures { result ≡ same a.now b.now }
{
    let last = a.len() - 8;
    if word(a, last) != word(b, last) {
        return false;
    }
    // Not `step_by`: that takes an eighth longer.
    let mut i = 0;
    while i < last {
        if word(a, i) != word(b, i) {
            return false;
        }
        i += 8;
    }
    true
}

// Two parts of the spool are the same: names.
pub fn same(a: &[u8], b: &[u8]) -> bool
    ensures { result ≡ same a.now b.now }
{
    if a.len() != b.len() {
        return false;
    }
    match a.len() {
        0..=3 => same_bytes(a, b),
        4..=7 => same_halves(a, b),
        _ => same_words(a, b),
    }
}

// A part of the spool is this byte string of the code: how every key is recognised. No byte of it is looked at twice, as the code then
// compares with the bytes themselves; with words that reach over each other, as in `same`, it first lays the byte string out on the stack.
pub fn spells(part: &[u8], fixed: &[u8]) -> bool
    ensures { result ≡ same part.now fixed.now }
{
    if part.len() != fixed.len() {
        return false;
    }
    if part.len() < 8 {
        return same_bytes(part, fixed);
    }
    word(part, 0) == word(fixed, 0) && same_bytes(&part[8..], &fixed[8..])
}

// Where the first b stands, or the length.
pub fn find(s: &[u8], b: u8) -> usize
    ensures { result ≡ length (up_to b s.now) }
{
    s.iter().position(|x| *x == b).unwrap_or(s.len())
}

// lo to hi
pub fn within(lo: u64, hi: u64, n: u64) -> bool
    ensures { result ≡ within lo hi n }
{
    lo <= n && n <= hi
}

// Not `matches!` here and in the two tests below: the processor then branches at each end of a run, and Japanese text takes a quarter longer.
fn single_byte(b: u8) -> bool
    ensures { result ≡ single_byte b }
{
    within(0x20, 0x7e, b as u64) || within(0xa1, 0xdf, b as u64)
}

fn lead_byte(b: u8) -> bool
    ensures { result ≡ lead_byte b }
{
    within(0x81, 0x9f, b as u64) || within(0xe0, 0xfc, b as u64)
}

fn trail_byte(b: u8) -> bool
    ensures { result ≡ trail_byte b }
{
    within(0x40, 0x7e, b as u64) || within(0x80, 0xfc, b as u64)
}

// b is allowed where it stands: behind a lead only a trail.
fn may_stand(lead: bool, b: u8) -> bool
    ensures { result ≡ may_stand lead b }
{
    if lead {
        return trail_byte(b);
    }
    single_byte(b) || lead_byte(b)
}

// b starts a pair: a lead that is not itself the trail of one.
fn starts_pair(lead: bool, b: u8) -> bool
    ensures { result ≡ starts_pair lead b }
{
    !lead && lead_byte(b)
}

// Only bytes that document 01 allows, and every lead has its trail.
pub fn allowed(s: &[u8]) -> bool
    ensures { result ≡ allowed s.now }
{
    let mut lead = false;
    for &b in s {
        if !may_stand(lead, b) {
            return false;
        }
        lead = starts_pair(lead, b);
    }
    !lead
}

pub(crate) fn digit(b: u8) -> bool
    ensures { result ≡ is_digit b }
{
    b.is_ascii_digit()
}

// "a-z read as A-Z"
pub fn capital(b: u8) -> u8
    ensures { result ≡ capital b }
{
    b.to_ascii_uppercase()
}

fn letter(b: u8) -> bool
    ensures { result ≡ is_letter b }
{
    b.is_ascii_alphabetic()
}

fn of_word(b: u8) -> bool
    ensures { result ≡ byte_in letters_and_digits b }
{
    letter(b) || digit(b)
}

fn of_telephone(b: u8) -> bool
    ensures { result ≡ byte_in telephone b }
{
    digit(b) || matches!(b, b'-' | b'(' | b')')
}

fn of_circuit(b: u8) -> bool
    ensures { result ≡ byte_in circuit_bytes b }
{
    letter(b) || digit(b) || b == b'-' || b == b'.'
}

// Every byte is of the set with this number, as the rows of the tables have it (`TextRule.set`): 1 ASCII, 2 letters and digits,
// 3 telephone, 4 circuit; any other number: every byte.
pub fn all_in(s: &[u8], set: u8) -> bool
    ensures { result ≡ all (byte_in (bytes_of set)) s.now }
{
    match set {
        1 => s.iter().all(|b| matches!(*b, 0x20..=0x7e)),
        2 => s.iter().all(|b| of_word(*b)),
        3 => s.iter().all(|b| of_telephone(*b)),
        4 => s.iter().all(|b| of_circuit(*b)),
        _ => true,
    }
}

fn layer_letter(b: u8) -> bool
    ensures { result ≡ is_layer_letter b }
{
    matches!(b, b'B' | b'A' | b'E' | b'P' | b'M')
}

// A layer's id: a layer's letter, `_` and three digits.
pub fn is_layer_id(s: &[u8]) -> bool
    ensures { result ≡ is_layer_id s.now }
{
    s.len() == 5 && layer_letter(s[0]) && s[1] == b'_' && digit(s[2]) && digit(s[3]) && digit(s[4])
}
