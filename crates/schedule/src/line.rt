// The lines of a schedule. A line is read from the part of the schedule that begins with it; its end is looked for once, and its fields
// within it.
ghost use Rattle.std.specs.Prelude.{◌≡◌, ◌==◌, position};
ghost use Rattle.windows.specs.Windows.{window_in};
ghost use Rattle.schedule.specs.declared.verb.Verb.TheVariants.{Setup, Send, Give, Turn, Lie};
ghost use Rattle.schedule.specs.Reading.{body_length, LastAt, SetAt, the_senders, the_windows, OneAt, ManyAt, ManyRead, NamedBy, BeginsWith, LiedOf, SetupOf, Understood, LineOf};

use crate::verb::{Verb, verb_of};
use statements::{BLOCK, BYTE_MAX, NOTICES, Statement, number_at};
use text::{NEWLINE, NUMBER_MAX, Read};
use views::View;
use windows::WINDOWS;

// A set is written as four hexadecimal digits.
const SET_DIGITS: usize = 4;

// The last controller's number.
const LAST: u64 = View::WIDTH as u64 - 1;

// The largest number of a window, count of windows and minute that reads.
const SHORT_MAX: u64 = 65535;

// A setup is read where it is done (`read_setup`), since its senders and windows need memory, and a lie's statement where the lie is told
// (`lied`), so that no other line pays for them.
#[derive(Clone, Copy)]
pub enum Line {
    Setup,
    Join(u8),
    Leave(u8),
    Send(u8, u8, u64),
    Give(u8, u64),
    All(u8),
    Turn(u8, u16),
    Lie,
}

// What a setup says, and of its senders and windows the counts.
#[derive(Clone, Copy)]
pub struct ReadSetup {
    pub members: u16,
    pub count: usize,
    pub faulty: u16,
    pub windows: usize,
}

// What a line was read as, if it is readable, and where the next one begins.
#[derive(Clone, Copy)]
pub struct ReadLine {
    pub parsed: Option<Line>,
    pub next: usize,
}

// Where the first newline stands. Not inlined, since a compiler then counts what is left of the line beside each byte.
#[inline(never)]
fn newline_in(s: &[u8]) -> Option<usize>
    ensures { result ≡ position (λ b. b == 10) s.now }
{
    s.iter().position(|b| *b == NEWLINE)
}

// How many bytes stand before the newline, or before the end where there is none.
fn line_end(s: &[u8]) -> usize
    ensures { result ≡ body_length s.now }
{
    newline_in(s).unwrap_or(s.len())
}

// A comma and a number, to the line's end.
fn last_at(line: &[u8], at: usize, most: u64) -> Option<u64>
    ensures { LastAt line.now at most result }
{
    let number = number_at(line, at, most)?;
    if number.next < line.len() {
        return None;
    }
    Some(number.value)
}

// A comma and a set.
fn set_at(line: &[u8], at: usize) -> Option<Read<u64>>
    ensures { SetAt line.now at result }
{
    if !text::comma_at(line, at) {
        return None;
    }
    text::read_hex(line, at + 1, SET_DIGITS)
}

// A line that names a controller and nothing more.
fn read_named(line: &[u8], verb: Verb, at: usize) -> Option<Line>
    requires { NamedBy line.now verb at }
    ensures { Understood line.now result }
{
    let k = last_at(line, at, LAST)? as u8;
    match verb {
        Verb::Join => Some(Line::Join(k)),
        Verb::Leave => Some(Line::Leave(k)),
        _ => Some(Line::All(k)),
    }
}

fn read_give(line: &[u8]) -> Option<Line>
    requires { BeginsWith Give line.now }
    ensures { Understood line.now result }
{
    let k = number_at(line, 4, LAST)?;
    let n = last_at(line, k.next, NUMBER_MAX)?;
    Some(Line::Give(k.value as u8, n))
}

fn read_turn(line: &[u8]) -> Option<Line>
    requires { BeginsWith Turn line.now }
    ensures { Understood line.now result }
{
    let k = number_at(line, 4, LAST)?;
    let minute = last_at(line, k.next, SHORT_MAX)?;
    Some(Line::Turn(k.value as u8, minute as u16))
}

fn read_send(line: &[u8]) -> Option<Line>
    requires { BeginsWith Send line.now }
    ensures { Understood line.now result }
{
    let k = number_at(line, 4, LAST)?;
    let notice = number_at(line, k.next, BYTE_MAX)?;
    let payload = last_at(line, notice.next, NUMBER_MAX)?;
    Some(Line::Send(k.value as u8, notice.value as u8, payload))
}

// As many values as are told, each as `read` reads it from a position, to where the next field begins. One that does not read ends the reading, since a short line may
// tell of 65535, and one past the last place goes nowhere: a setup that has so many is refused by their count.
fn many_at<T: Copy, const N: usize, F: Fn(usize) -> Option<Read<T>>>(
    from: usize,
    n: usize,
    memory: &mut [T; N],
    read: F,
) -> Option<usize>
    requires { F.IsAlwaysCallable read }
    ensures { ManyRead (F.post read) N from n memory.new result }
{
    let mut at = from;
    for j in 0..n {
        let Read { value, next } = read(at)?;
        if j < N {
            memory[j] = value;
        }
        at = next;
    }
    Some(at)
}

// A sender's number, with the comma before it.
fn sender_at(line: &[u8], at: usize) -> Option<Read<u8>>
    ensures { OneAt the_senders line.now at result }
{
    let number = number_at(line, at, BYTE_MAX)?;
    Some(Read {
        value: number.value as u8,
        next: number.next,
    })
}

fn senders_at(line: &[u8], from: usize, n: usize, senders: &mut [u8; NOTICES]) -> Option<usize>
    ensures { ManyAt the_senders line.now from n senders.new result }
{
    many_at(from, n, senders, |at| sender_at(line, at))
}

// A window's three numbers, each with the comma before it, as its word.
fn window_at(line: &[u8], at: usize) -> Option<Read<u64>>
    ensures { OneAt the_windows line.now at result }
{
    let weekday = number_at(line, at, SHORT_MAX)?;
    let first = number_at(line, weekday.next, SHORT_MAX)?;
    let end = number_at(line, first.next, SHORT_MAX)?;
    Some(Read {
        value: windows::word_of(weekday.value as u16, first.value as u16, end.value as u16),
        next: end.next,
    })
}

fn windows_at(line: &[u8], from: usize, n: usize, windows: &mut [u64; WINDOWS]) -> Option<usize>
    ensures { ManyAt the_windows line.now from n windows.new result }
{
    many_at(from, n, windows, |at| window_at(line, at))
}

// The fields of a setup after its word.
fn setup_fields(
    line: &[u8],
    senders: &mut [u8; NOTICES],
    windows: &mut [u64; WINDOWS],
) -> Option<ReadSetup>
    requires { BeginsWith Setup line.now }
    ensures { SetupOf line.now senders.new windows.new result }
{
    let members = set_at(line, 5)?;
    let count = number_at(line, members.next, BYTE_MAX)?;
    let n = count.value as usize;
    let named = senders_at(line, count.next, n, senders)?;
    let faulty = set_at(line, named)?;
    let many = number_at(line, faulty.next, SHORT_MAX)?;
    let w = many.value as usize;
    let last = windows_at(line, many.next, w, windows)?;
    if last < line.len() {
        return None;
    }
    Some(ReadSetup {
        members: members.value as u16,
        count: n,
        faulty: faulty.value as u16,
        windows: w,
    })
}

fn is_setup(line: &[u8]) -> Option<Line>
    requires { BeginsWith Setup line.now }
    ensures { Understood line.now result }
{
    let mut senders = [0u8; NOTICES];
    let mut windows = [0u64; WINDOWS];
    setup_fields(line, &mut senders, &mut windows)?;
    Some(Line::Setup)
}

// All after the comma is to be a statement's text; it is read where the lie is told.
fn read_lie(line: &[u8]) -> Option<Line>
    requires { BeginsWith Lie line.now }
    ensures { Understood line.now result }
{
    if text::comma_at(line, 3) {
        Some(Line::Lie)
    } else {
        None
    }
}

// A line without its newline.
fn read_body(line: &[u8]) -> Option<Line>
    ensures { Understood line.now result }
{
    let verb = verb_of(line);
    match verb {
        Verb::Setup => is_setup(line),
        Verb::Join => read_named(line, verb, 4),
        Verb::Leave => read_named(line, verb, 5),
        Verb::Send => read_send(line),
        Verb::Give => read_give(line),
        Verb::All => read_named(line, verb, 3),
        Verb::Turn => read_turn(line),
        Verb::Lie => read_lie(line),
        Verb::Unknown => None,
    }
}

// The line that s begins with. A last line without a newline is unreadable.
pub fn read_line(s: &[u8]) -> ReadLine
    ensures { LineOf s.now result }
{
    let end = line_end(s);
    if end < s.len() {
        return ReadLine {
            parsed: read_body(&s[..end]),
            next: end + 1,
        };
    }
    ReadLine {
        parsed: None,
        next: s.len(),
    }
}

// What a setup says, where the line is one. Of its senders the first 64, and of its windows the first 8 go to the memories.
pub fn read_setup(
    line: &[u8],
    senders: &mut [u8; NOTICES],
    windows: &mut [u64; WINDOWS],
) -> Option<ReadSetup>
    ensures { SetupOf line.now senders.new windows.new result }
{
    if !line.starts_with(b"setup") {
        return None;
    }
    setup_fields(line, senders, windows)
}

// The statement of a lie in a ring with this number of notices, where the line is one and its text that of a statement that keeps the field rules.
pub fn lied(line: &[u8], notices: usize, block: &mut [u64; BLOCK]) -> Option<Statement>
    ensures { LiedOf line.now notices block.new result }
{
    let text = line.strip_prefix(b"lie,")?;
    statements::read(text, notices, block)
}
