#![tactic(auto)]
// A field of a table text: six characters and the number that they say, read.
// A text and a place in it are a list and an index: a slice from the place on would be measured anew for each field. Numbers are read by hand, since std's
// `parse` takes `+1` and `01`, which are no fields. Casts are by `as` where `From` has no way and `TryFrom` would answer with a `Result` that cannot fail.
ghost use Rattle.std.specs.Prelude.{◌≡◌, ◌+◌, ◌≤◌, true, not, ◌==◌, IfSome, length, take, drop};
ghost use Rattle.std.specs.List.{position};
ghost use Rattle.fields.specs.Field.{answer, field_of, decimal_of, digits_from, field_at};
ghost use Rattle.fields.specs.QuickFields.{Hundreds, Quick, ZeroField};

// The place of the first character that is no space.
fn past_spaces(cs: &[u8]) -> Option<usize>
    ensures { result ≡ position (λ c. not (c == 32)) cs.now }
{
    cs.iter().position(|c| *c != b' ')
}

// The number that digits alone say.
fn digits(cs: &[u8]) -> Option<u32>
    requires { length cs.now ≤ 6 }
    ensures { result ≡ answer (digits_from 0 cs.now) }
{
    let mut m: u32 = 0;
    for c in cs {
        if !c.is_ascii_digit() {
            return None;
        }
        m = 10 * m + u32::from(*c - b'0');
    }
    Some(m)
}

// The number that characters say with no sign and no leading zero.
fn unsigned(cs: &[u8]) -> Option<u32>
    requires { length cs.now ≤ 6 }
    ensures { result ≡ answer (decimal_of cs.now) }
{
    let (first, rest) = cs.split_first()?;
    if *first == b'0' {
        if rest.is_empty() {
            return Some(0);
        }
        return None;
    }
    digits(cs)
}

// The number that six characters say.
fn field_of(cs: &[u8]) -> Option<i32>
    requires { length cs.now ≡ 6 }
    ensures { result ≡ answer (field_of cs.now) }
{
    let first = past_spaces(cs)?;
    if cs[first] == b'-' {
        let m = unsigned(&cs[first + 1..])?;
        if m == 0 {
            return None;
        }
        return Some(-(m as i32));
    }
    let m = unsigned(&cs[first..])?;
    Some(m as i32)
}

// The number of three digits: the first, 32 less than its character, the second's character and the third.
fn hundreds(lead: u32, e: u8, ones: u32) -> Option<u32>
    requires { ones ≤ 9 }
    ensures { IfSome result (Hundreds lead e ones) }
{
    match lead {
        17..=25 if e.is_ascii_digit() => Some(100 * (lead - 16) + 10 * u32::from(e - b'0') + ones),
        _ => None,
    }
}

// The number of the six characters at a place, where they are spaces and at most three digits.
pub fn quick_at(text: &[u8], at: usize) -> Option<u32>
    requires { at + 6 ≤ length text.now }
    ensures { IfSome result (Quick (take 6 (drop at text.now))) }
{
    let e = text[at + 4];
    let f = text[at + 5];
    if !f.is_ascii_digit() {
        return None;
    }
    let ones = u32::from(f - b'0');
    let head = u32::from_le_bytes([text[at], text[at + 1], text[at + 2], text[at + 3]]);
    let lead = head.checked_sub(0x20202020)?;
    if lead == 0 {
        return match e {
            b' ' => Some(ones),
            b'1'..=b'9' => Some(10 * u32::from(e - b'0') + ones),
            _ => None,
        };
    }
    if lead % 0x1000000 != 0 {
        return None;
    }
    hundreds(lead / 0x1000000, e, ones)
}

// The number that the six characters at a place say.
pub fn field_in(text: &[u8], at: usize) -> Option<i32>
    requires { at + 6 ≤ length text.now }
    ensures { result ≡ field_at text.now at }
{
    match quick_at(text, at) {
        Some(n) => Some(n as i32),
        None => field_of(&text[at..at + 6]),
    }
}

// Whether the six characters at a place are a zero.
pub fn zero_at(text: &[u8], at: usize) -> bool
    requires { at + 6 ≤ length text.now }
    ensures { result ≡ true → ZeroField text.now at }
{
    let head = u32::from_le_bytes([text[at], text[at + 1], text[at + 2], text[at + 3]]);
    let tail = u16::from_le_bytes([text[at + 4], text[at + 5]]);
    (head == u32::from_le_bytes(*b"    ")) & (tail == u16::from_le_bytes(*b" 0"))
}

// The number that the six characters at a place say; none too where fewer stand there.
pub fn read_field(text: &[u8], at: usize) -> Option<i32>
    ensures { result ≡ field_at text.now at }
{
    let last = text.len().checked_sub(6)?;
    if last < at {
        return None;
    }
    field_in(text, at)
}
