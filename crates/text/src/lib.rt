// The fields of a line: a decimal number and a set of hexadecimal digits. A reader goes from a position and answers the value and the
// next position, or refuses; a writer goes from a position with room and answers the next one.
#![tactic(auto)]

ghost use Rattle.std.specs.Prelude.{◌≡◌, ◌+◌, ◌-◌, ◌<◌, ◌≤◌, length, drop};
ghost use Rattle.text.specs.Text.{glyph, dec_text, hex_text};
ghost use Rattle.text.specs.Scan.{hex_digit, scan_dec, zero_then, dec_at, hex_at, is_comma};
ghost use Rattle.text.specs.Written.{Wrote};

pub const COMMA: u8 = 44;

pub const NEWLINE: u8 = 10;

// The digit 0.
pub const ZERO: u8 = 48;

// The greatest number that a field has: 64 bits.
pub const NUMBER_MAX: u64 = u64::MAX;

// What was read at a position, and the position after it.
#[derive(Clone, Copy)]
pub struct Read<T> {
    pub value: T,
    pub next: usize,
}

// The value of a hexadecimal digit. A letter is a lower-case one.
fn hex_value(b: u8) -> Option<u64>
    ensures { result ≡ hex_digit b }
{
    match b {
        b'0'..=b'9' => Some(u64::from(b - b'0')),
        b'a'..=b'f' => Some(u64::from(b - b'a') + 10),
        _ => None,
    }
}

// The number goes on with the digits from a position: `start` is what stands before it.
fn scan_dec(s: &[u8], from: usize, start: u64) -> Option<Read<u64>>
    ensures { result ≡ scan_dec start from (drop from s.now) }
{
    let mut value = start;
    for next in from..s.len() {
        let c = s[next];
        if !c.is_ascii_digit() {
            return Some(Read { value, next });
        }
        value = value.checked_mul(10)?.checked_add(u64::from(c - b'0'))?;
    }
    Some(Read {
        value,
        next: from.max(s.len()),
    })
}

// After a leading zero no digit may follow.
fn after_zero(s: &[u8], next: usize) -> Option<Read<u64>>
    ensures { result ≡ zero_then next (drop next s.now) }
{
    if next < s.len() && s[next].is_ascii_digit() {
        return None;
    }
    Some(Read { value: 0, next })
}

// The decimal number at a position. Only `0` itself begins with a zero, so that a number has one text.
pub fn read_dec(s: &[u8], at: usize) -> Option<Read<u64>>
    ensures { result ≡ dec_at s.now at }
{
    let c = *s.get(at)?;
    let next = at + 1;
    if c == ZERO {
        return after_zero(s, next);
    }
    if !c.is_ascii_digit() {
        return None;
    }
    scan_dec(s, next, u64::from(c - b'0'))
}

// The set of exactly `digits` digits at a position.
pub fn read_hex(s: &[u8], at: usize, digits: usize) -> Option<Read<u64>>
    requires { digits ≤ 16 }
    ensures { result ≡ hex_at s.now at digits }
{
    if s.len().saturating_sub(at) < digits {
        return None;
    }
    let next = at + digits;
    let mut value = 0;
    for i in at..next {
        value = value * 16 + hex_value(s[i])?;
    }
    Some(Read { value, next })
}

pub fn comma_at(s: &[u8], at: usize) -> bool
    ensures { result ≡ is_comma s.now at }
{
    at < s.len() && s[at] == COMMA
}

// How many digits a number below ten thousand has.
fn short_len(v: u64) -> usize
    requires { v < 10000 }
    ensures { result ≡ length (dec_text v) }
{
    match v {
        0..=9 => 1,
        10..=99 => 2,
        100..=999 => 3,
        _ => 4,
    }
}

// How many digits a number has. Four go at a time, since a division is slow.
pub fn dec_len(v: u64) -> usize
    ensures { (result ≡ length (dec_text v)) × (0 < result) × (result ≤ 20) }
{
    let mut n: usize = 0;
    let mut x = v;
    while x > 9999 {
        x /= 10000;
        n += 4;
    }
    n + short_len(x)
}

// By a table: with a choice between figures and letters, writing a line of sixteen views takes half as many instructions again.
fn glyph_of(d: u64) -> u8
    requires { d < 16 }
    ensures { result ≡ glyph d }
{
    match d {
        0 => 48,
        1 => 49,
        2 => 50,
        3 => 51,
        4 => 52,
        5 => 53,
        6 => 54,
        7 => 55,
        8 => 56,
        9 => 57,
        10 => 97,
        11 => 98,
        12 => 99,
        13 => 100,
        14 => 101,
        _ => 102,
    }
}

// Writes t from a position with room for it, and answers the next position.
pub fn write_text(out: &mut [u8], at: usize, t: &[u8]) -> usize
    requires { at + length t.now ≤ length out.old }
    ensures { Wrote out.old at t.now result out.new }
{
    let end = at + t.len();
    out[at..end].copy_from_slice(t);
    end
}

// Writes v from a position with room for it, and answers the next position. The digits go in from the last one on, two at a time.
pub fn write_dec(out: &mut [u8], at: usize, v: u64) -> usize
    requires { at + length (dec_text v) ≤ length out.old }
    ensures { Wrote out.old at (dec_text v) result out.new }
{
    // Most numbers of a line have one digit.
    if v < 10 {
        out[at] = glyph_of(v);
        return at + 1;
    }
    let end = at + dec_len(v);
    let mut i = end;
    let mut x = v;
    while x > 99 {
        let two = x % 100;
        out[i - 1] = glyph_of(two % 10);
        out[i - 2] = glyph_of(two / 10);
        i -= 2;
        x /= 100;
    }
    if x > 9 {
        out[i - 1] = glyph_of(x % 10);
        out[i - 2] = glyph_of(x / 10);
    } else {
        out[i - 1] = glyph_of(x);
    }
    end
}

// Writes the last `digits` hexadecimal digits of v from a position with room for them, and answers the next position.
pub fn write_hex(out: &mut [u8], at: usize, v: u64, digits: usize) -> usize
    requires { at + digits ≤ length out.old }
    ensures { Wrote out.old at (hex_text digits v) result out.new }
{
    let end = at + digits;
    let mut x = v;
    for i in (at..end).rev() {
        out[i] = glyph_of(x % 16);
        x /= 16;
    }
    end
}
