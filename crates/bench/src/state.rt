// What a line does to the bench: to the controller or the record that it names, to the pool, and to the settings.
ghost use Rattle.std.specs.Prelude.{◌≡◌, true, false, ◌<◌, ◌≤◌};
ghost use Rattle.protocol.specs.Sets.{bit};
ghost use Rattle.statements.specs.Meaning.{stmt_of};
ghost use Rattle.engine.specs.Meaning.{came_to, signed_number};
ghost use Rattle.schedule.specs.Line as lines;
ghost use Rattle.schedule.specs.Reading.{Lying, SettingUp};
ghost use Rattle.bench.specs.Seats.{Distinct, Sound, ReadFrom, seat_of, is_call, changes_is, denied, refused_for, minute_in, turn_verdict, turn_after, waits_at, turn_known, next_turn, join_verdict, leave_verdict, send_verdict, Judged, CalledByLine, ToldAs, SteppedBy, SteppedOnPool, SteppedOnPoolBy, SetUpBy, shown_in, NoStatement, LacksNothing};

use crate::seat;
use crate::seat::Given;
use engine::{Answer, Controller, Outcome, Refusal, Setup};
use pool::{POOL_WORDS, RECORD};
use schedule::line;
use schedule::line::Line;
use statements::{BLOCK, NOTICES, Statement};
use views::View;
use windows::{LAST_MINUTE, WINDOWS};

// The number in a row that names no controller.
pub const NOBODY: u64 = View::WIDTH as u64;

// What a setup says, but for the senders of its notices and when its windows are.
#[derive(Clone, Copy)]
pub struct Setting {
    pub ready: bool,
    pub faulty: u16,
    pub members: u16,
    pub notices: usize,
    pub windows: usize,
}

// What a line that calls no controller answers, and what it leaves: `fresh` where every controller is to start, and `whole` where the record
// has all of the pool now.
#[derive(Clone, Copy)]
pub struct Effect {
    pub who: u64,
    pub answer: Result<Answer, Refusal>,
    pub number: u64,
    pub setting: Setting,
    pub fresh: bool,
    pub whole: bool,
}

// Whether a line calls the controller that it names.
pub fn is_call(line: Line) -> bool
    ensures { result ≡ is_call line }
{
    matches!(
        line,
        Line::Join(_) | Line::Leave(_) | Line::Send(_, _, _) | Line::Turn(_, _)
    )
}

// What a call answers that is known to change nothing; none of a call of which nothing is known.
pub type Known = Option<Result<Answer, Refusal>>;

fn denied(r: Refusal) -> Known
    ensures { result ≡ denied r }
{
    Some(Err(r))
}

fn join_verdict(c: Controller) -> Known
    ensures { result ≡ join_verdict c }
{
    if c.init.has_member(c.number) || c.joining {
        return denied(Refusal::BadRequest);
    }
    None
}

fn leave_verdict(c: Controller) -> Known
    ensures { result ≡ leave_verdict c }
{
    if c.entered.len == 0 || c.leaving {
        return denied(Refusal::BadRequest);
    }
    None
}

fn send_verdict(c: Controller, notice: u64) -> Known
    ensures { result ≡ send_verdict c notice }
{
    if !engine::is_notice(notice, c.notices) {
        return denied(Refusal::UnknownNotice);
    }
    let j = notice as usize;
    if c.number != c.senders[j] || statements::has(c.requested, j) {
        return denied(Refusal::BadRequest);
    }
    None
}

// The minute of a turn; 0 in any other line.
fn minute_of(line: Line) -> u16
    ensures { result ≡ minute_in line }
{
    let Line::Turn(_, minute) = line else {
        return 0;
    };
    minute
}

// A turn at a minute that no week has, or one of which `turn` is known.
fn turn_verdict(minute: u16, turn: Known) -> Known
    ensures { result ≡ turn_verdict minute turn }
{
    if minute > LAST_MINUTE {
        return denied(Refusal::BadMinute);
    }
    turn
}

// Whether a request is refused, or a turn before a setup or at no minute of a week, or one of which `turn` is known. It looks at a few fields alone, so that a compiler copies no whole controller for it.
pub fn judge(c: Controller, line: Line, turn: Known) -> Known
    requires { is_call line ≡ true }
    ensures { Judged c line turn result }
{
    if !c.ready {
        return denied(Refusal::OutOfPlace);
    }
    match line {
        Line::Join(_) => join_verdict(c),
        Line::Leave(_) => leave_verdict(c),
        Line::Send(_, notice, _) => send_verdict(c, notice as u64),
        _ => turn_verdict(minute_of(line), turn),
    }
}

// What is known of the next turn after one that answered so.
fn turn_after(a: Result<Answer, Refusal>) -> Known
    ensures { result ≡ turn_after a }
{
    match a {
        Ok(Answer::Left) => Some(Ok(Answer::Left)),
        Ok(Answer::Quiet) => Some(Ok(Answer::Quiet)),
        _ => None,
    }
}

// Whether the controller asked to leave and the minute is outside its windows: then a later turn may find something to do although nothing else changed.
fn waits(c: Controller, minute: u16) -> bool
    ensures { result ≡ waits_at c minute }
{
    if !c.leaving {
        return false;
    }
    !windows::is_open(&c.times, c.windows, minute)
}

// What is known of the next turn of the controller c after a turn at this minute that answered so.
fn turn_known(c: Controller, minute: u16, a: Result<Answer, Refusal>) -> Known
    ensures { result ≡ turn_known c minute a }
{
    if waits(c, minute) {
        return None;
    }
    turn_after(a)
}

// What is known of the next turn of the controller c after a call on it that answered so.
pub fn next_turn(c: Controller, line: Line, a: Result<Answer, Refusal>) -> Known
    ensures { result ≡ next_turn c line a }
{
    let Line::Turn(_, minute) = line else {
        return None;
    };
    turn_known(c, minute, a)
}

// The call of a line on its controller: a request, or else a turn.
pub fn call(
    c: Controller,
    ids: &mut [u16; RECORD],
    words: &mut [u64; POOL_WORDS],
    line: Line,
) -> Result<Outcome, Refusal>
    requires { Sound words.old ids.old × (is_call line ≡ true) }
    ensures { CalledByLine words.old ids.old c line (came_to c result) words.new ids.new }
{
    match line {
        Line::Join(_) => c.join(),
        Line::Leave(_) => c.leave(),
        Line::Send(_, notice, m) => c.send(notice as u64, m),
        _ => lent::lend_turn(c, ids, words, minute_of(line)),
    }
}

// Whether a call that answers so may have changed its controller.
pub fn changes(a: Answer) -> bool
    ensures { result ≡ changes_is (Ok a) }
{
    !matches!(a, Answer::Left | Answer::Quiet)
}

// The number in the row of a call: of a turn that signs, the statement's.
pub fn number_of(a: Result<Answer, Refusal>) -> u64
    ensures { result ≡ signed_number a }
{
    match a {
        Ok(Answer::Signed(n)) => n as u64,
        _ => 0,
    }
}

// A line that leaves the settings as they are.
fn told(g: Setting, who: u64, r: Given) -> Effect
    ensures { ToldAs g who r result }
{
    Effect {
        who,
        answer: r.answer,
        number: r.number,
        setting: g,
        fresh: false,
        whole: r.whole,
    }
}

fn refused(g: Setting, who: u64, r: Refusal) -> Effect
    ensures { ToldAs g who (refused_for r) result }
{
    told(g, who, seat::refused(r))
}

// Whom the row of a setup shows: the sender of notice 0.
fn shown_sender(senders: &[u8; NOTICES], count: usize) -> u64
    ensures { result ≡ shown_in senders.now count }
{
    if count == 0 {
        return NOBODY;
    }
    if senders[0] < View::WIDTH {
        return senders[0] as u64;
    }
    NOBODY
}

// A setup that is taken starts every controller on an empty pool. Its senders and windows are read here, into the memory.
fn set_up(
    words: &mut [u64; POOL_WORDS],
    g: Setting,
    text: &[u8],
    senders: &mut [u8; NOTICES],
    windows: &mut [u64; WINDOWS],
) -> Effect
    requires { Distinct words.old × SettingUp text.now }
    ensures { SetUpBy words.old g text.now result words.new senders.new windows.new }
{
    let Some(said) = line::read_setup(text, senders, windows) else {
        unreachable!();
    };
    let who = shown_sender(senders, said.count);
    if g.ready {
        return refused(g, who, Refusal::BadSetup);
    }
    let named = Setup {
        members: said.members,
        notices: said.count,
        windows: said.windows,
    };
    if !engine::is_allowed(0, named, senders) {
        return refused(g, who, Refusal::BadSetup);
    }
    if !windows::are_allowed(windows, said.windows) {
        return refused(g, who, Refusal::BadWindow);
    }
    pool::clear(words);
    Effect {
        who,
        answer: Ok(Answer::Taken),
        number: 0,
        setting: Setting {
            ready: true,
            faulty: said.faulty,
            members: said.members,
            notices: said.count,
            windows: said.windows,
        },
        fresh: true,
        whole: false,
    }
}

// Whether controller k is in the faulty set.
fn is_marked(faulty: u16, k: u8) -> bool
    ensures { result ≡ bit faulty k }
{
    let marked = View {
        joined: faulty as u32,
        left: 0,
    };
    marked.has_member(k)
}

// A lie changes the pool alone.
fn lie(words: &mut [u64; POOL_WORDS], g: Setting, st: Statement, block: &[u64; BLOCK]) -> Effect
    requires { Distinct words.old × (st.history.len ≤ 16) × (st.origin < 16) }
    ensures { SteppedOnPool words.old g (lines.lie (stmt_of st block.now)) result words.new }
{
    let who = st.origin as u64;
    if !g.ready {
        return refused(g, who, Refusal::OutOfPlace);
    }
    if !is_marked(g.faulty, st.origin) {
        return refused(g, who, Refusal::OutOfPlace);
    }
    if !engine::is_notice(st.notice as u64, g.notices) {
        return refused(g, who, Refusal::UnknownNotice);
    }
    if let Some(_) = pool::find(words, st, block) {
        return refused(g, who, Refusal::Repeated);
    }
    let Ok(n) = pool::append(words, st, block) else {
        return refused(g, who, Refusal::Full);
    };
    told(g, who, seat::taken(n as u64, false))
}

// A lie whose text is no statement.
fn no_statement(g: Setting) -> Effect
    ensures { NoStatement g result }
{
    if !g.ready {
        return refused(g, NOBODY, Refusal::OutOfPlace);
    }
    refused(g, NOBODY, Refusal::BadStatement)
}

// A line that is a lie. Its statement is read here, so that no other line pays for it.
fn lie_line(words: &mut [u64; POOL_WORDS], g: Setting, text: &[u8]) -> Effect
    requires { Distinct words.old × Lying text.now }
    ensures { SteppedOnPoolBy words.old g text.now result words.new }
{
    let mut block = [0u64; BLOCK];
    let Some(st) = line::lied(text, g.notices, &mut block) else {
        return no_statement(g);
    };
    lie(words, g, st, &block)
}

// Whether a line is an `all` that finds nothing missing. The record of the controller that it names has every number below `full`.
pub fn lacks_nothing(line: Line, g: Setting, words: &[u64; POOL_WORDS], full: usize) -> bool
    ensures { result ≡ true → LacksNothing words.now g full line }
{
    if !g.ready {
        return false;
    }
    if pool::pool_len(words) > full {
        return false;
    }
    let Line::All(_) = line else {
        return false;
    };
    true
}

// What a line does that calls no controller: a setup, a gift, or else a lie. It was read from the text, and the record is that of the controller that it names, or any other
// where it names none. The senders and windows of a setup go to the memory.
pub fn step(
    ids: &mut [u16; RECORD],
    words: &mut [u64; POOL_WORDS],
    g: Setting,
    line: Line,
    text: &[u8],
    senders: &mut [u8; NOTICES],
    windows: &mut [u64; WINDOWS],
) -> Effect
    requires { Sound words.old ids.old × ReadFrom line text.now × (is_call line ≡ false) }
    ensures { SteppedBy words.old ids.old g (seat_of line) text.now result words.new ids.new senders.new windows.new }
{
    match line {
        Line::Setup => set_up(words, g, text, senders, windows),
        Line::Give(k, n) => told(g, k as u64, seat::give(ids, words, g.ready, n)),
        Line::All(k) => told(g, k as u64, seat::all(ids, words, g.ready)),
        _ => lie_line(words, g, text),
    }
}
