// The rows that the bench prints, written over lent memory.
ghost use Rattle.std.specs.Prelude.{◌≡◌, ◌∷◌, ◌+◌, ◌<◌, ◌≤◌, length};
ghost use Rattle.text.specs.Written.{Wrote};
ghost use Rattle.bench.specs.Rows.{header_text};
ghost use Rattle.bench.specs.Writing.{word_is, value_shown, row_of};

use text::NEWLINE;
use views::View;

// How long the header is.
pub const HEADER: usize = 22;

// No row is longer.
const ROW_MAX: usize = 40;

#[derive(Clone, Copy)]
pub enum Word {
    Taken,
    Signed,
    Entered,
    Delivered,
    Left,
    Quiet,
    Refused,
}

#[derive(Clone, Copy)]
pub enum Value {
    Number(u64),
    View(View),
}

impl Word {
    // Writes it as a row has it, after a comma; the longest has nine letters. Each is a constant, which a compiler copies without a call.
    fn put(self, out: &mut [u8], at: usize) -> usize
        requires { at + 10 ≤ length out.old }
        ensures { Wrote out.old at (44 ∷ word_is self) result out.new }
    {
        match self {
            Word::Taken => text::write_text(out, at, b",taken"),
            Word::Signed => text::write_text(out, at, b",signed"),
            Word::Entered => text::write_text(out, at, b",entered"),
            Word::Delivered => text::write_text(out, at, b",delivered"),
            Word::Left => text::write_text(out, at, b",left"),
            Word::Quiet => text::write_text(out, at, b",quiet"),
            Word::Refused => text::write_text(out, at, b",refused"),
        }
    }
}

// Of a text that stands from `at` on, writes what has room; the answer is where it would end.
fn put_within(out: &mut [u8], at: usize, t: &[u8]) -> usize
    requires { (at ≤ 2621504) × (length t.now ≤ 40) }
    ensures { Wrote out.old at t.now result out.new }
{
    let start = at.min(out.len());
    let room = t.len().min(out.len() - start);
    out[start..start + room].copy_from_slice(&t[..room]);
    at + t.len()
}

// A comma and the value; the longest has twenty digits.
fn put_value(out: &mut [u8], at: usize, value: Value) -> usize
    requires { at + 21 ≤ length out.old }
    ensures { Wrote out.old at (44 ∷ value_shown value) result out.new × (length (value_shown value) ≤ 20) }
{
    match value {
        Value::Number(n) => statements::put_number(out, at, n),
        Value::View(v) => statements::put_view(out, at, v),
    }
}

// Writes a row and its newline, and answers the next position. No schedule has 100000 lines, and no controller is above 16.
fn put_row(out: &mut [u8], at: usize, n: u64, who: u64, word: Word, value: Value) -> usize
    requires { (at + 40 ≤ length out.old) × (n < 100000) × (who < 100) }
    ensures { Wrote out.old at (row_of n who word value) result out.new × (length (row_of n who word value) ≤ 40) }
{
    let a = text::write_dec(out, at, n);
    let b = statements::put_number(out, a, who);
    let c = word.put(out, b);
    let d = put_value(out, c, value);
    out[d] = NEWLINE;
    d + 1
}

// Of a row, writes what has room, and answers the next position all the same.
pub fn put_row_within(
    out: &mut [u8],
    at: usize,
    n: u64,
    who: u64,
    word: Word,
    value: Value,
) -> usize
    requires { (at ≤ 2621504) × (n < 100000) × (who < 100) }
    ensures { Wrote out.old at (row_of n who word value) result out.new × (length (row_of n who word value) ≤ 40) }
{
    if at + ROW_MAX <= out.len() {
        return put_row(out, at, n, who, word, value);
    }
    let mut one = [0u8; ROW_MAX];
    let end = put_row(&mut one, 0, n, who, word, value);
    put_within(out, at, &one[..end])
}

// Writes the header from the start, or what of it has room.
pub fn put_header(out: &mut [u8]) -> usize
    ensures { Wrote out.old 0 header_text result out.new }
{
    put_within(out, 0, b"line,who,answer,value\n")
}
