// A schedule to its rows.
ghost use Rattle.std.specs.Prelude.{◌≡◌, true, false, ◌+◌, ◌<◌, ◌≤◌, length};
ghost use Rattle.text.specs.Written.{Wrote};
ghost use Rattle.bench.specs.Rows.{refused_row, Answered};
ghost use Rattle.bench.specs.After.{SeatAfter};
ghost use Rattle.bench.specs.Seats.{Sound, Full, ReadFrom, seat_of, is_call, IfIdle, Rests, word_of_answer, value_of_answer, setup_in, MayStart};
ghost use Rattle.bench.specs.Writing.{row_of};
ghost use Rattle.bench.specs.Running.{row_is, Started, HasRoom, RowPut, full_after, CallMade, CallRun, LineRun, AtStart, Ran, NotRun, RanWith, PrintedInto, Long};
ghost use Rattle.pool.specs.Pool.{pool_len};

use crate::row::{Value, Word};
use crate::state::{Known, NOBODY, Setting};
use crate::{row, state};
use engine::{Answer, Controller, Refusal, Setup};
use pool::{POOL_WORDS, RECORD};
use schedule::line;
use schedule::line::Line;
use statements::NOTICES;
use views::View;
use windows::WINDOWS;

// A seat for each controller.
const SEATS: usize = View::WIDTH as usize;

// No longer schedule is run.
const SCHEDULE_MAX: usize = 65536;

// The number of the refusal of a line that is unreadable, and of a schedule that is not run.
const UNREADABLE: u64 = 8;

// Enough for the rows of any schedule.
pub const ROWS_MAX: usize = 2621504;

fn word_of(a: Result<Answer, Refusal>) -> Word
    ensures { result ≡ word_of_answer a }
{
    match a {
        Ok(Answer::Taken) => Word::Taken,
        Ok(Answer::Signed(_)) => Word::Signed,
        Ok(Answer::Entered(_)) => Word::Entered,
        Ok(Answer::Delivered(_, _, _)) => Word::Delivered,
        Ok(Answer::Left) => Word::Left,
        Ok(Answer::Quiet) => Word::Quiet,
        Err(_) => Word::Refused,
    }
}

fn value_of(a: Result<Answer, Refusal>, n: u64) -> Value
    ensures { result ≡ value_of_answer a n }
{
    match a {
        Ok(Answer::Taken) => Value::Number(n),
        Ok(Answer::Signed(_)) => Value::Number(n),
        Ok(Answer::Entered(v)) => Value::View(v),
        Ok(Answer::Delivered(_, m, _)) => Value::Number(m),
        Ok(Answer::Left) => Value::Number(0),
        Ok(Answer::Quiet) => Value::Number(0),
        Err(r) => Value::Number(engine::refusal_number(r)),
    }
}

// Where a run stands: what the setup said, where the next line starts, its number, and where its row goes.
#[derive(Clone, Copy)]
struct Place {
    setting: Setting,
    at: usize,
    n: u64,
    out: usize,
}

// What a line that calls no controller leaves: `fresh` where every controller is to start. Its record is known to have every number below `full`.
#[derive(Clone, Copy)]
struct Moved {
    place: Place,
    fresh: bool,
    full: usize,
}

// What a run leaves: where its rows end, and the controller that was asked for, with its record.
#[derive(Clone, Copy)]
struct Ended {
    out: usize,
    controller: Controller,
    ids: [u16; RECORD],
}

// Writes a row, and goes on with the line that starts so many bytes later.
fn put_line(rows: &mut [u8], place: Place, next: usize, who: u64, word: Word, value: Value) -> Place
    requires { HasRoom place next × (who ≤ 16) }
    ensures { RowPut rows.old place next (row_of place.n who word value) result rows.new }
{
    let end = row::put_row_within(rows, place.out, place.n, who, word, value);
    Place {
        at: place.at + next,
        n: place.n + 1,
        out: end,
        ..place
    }
}

// The row of an answer.
fn put_step(
    rows: &mut [u8],
    place: Place,
    next: usize,
    who: u64,
    a: Result<Answer, Refusal>,
    number: u64,
) -> Place
    requires { HasRoom place next × (who ≤ 16) }
    ensures { RowPut rows.old place next (row_is place.n who a number) result rows.new }
{
    put_line(rows, place, next, who, word_of(a), value_of(a, number))
}

// The row of a line that is unreadable: it names nobody.
fn put_unreadable(rows: &mut [u8], place: Place, next: usize) -> Place
    requires { HasRoom place next }
    ensures { RowPut rows.old place next (row_of place.n 16 Word.Refused (Value.Number 8)) result rows.new }
{
    put_line(
        rows,
        place,
        next,
        NOBODY,
        Word::Refused,
        Value::Number(UNREADABLE),
    )
}

// The seat of the controller that a line names; the first where it names none.
fn seat_of(line: Line) -> usize
    ensures { result ≡ seat_of line }
{
    match line {
        Line::Setup | Line::Lie => 0,
        Line::Join(k)
        | Line::Leave(k)
        | Line::Send(k, _, _)
        | Line::Give(k, _)
        | Line::All(k)
        | Line::Turn(k, _) => k as usize,
    }
}

// Sixteen controllers that have just started, and their records emptied.
fn start_all(
    records: &mut [[u16; RECORD]; SEATS],
    g: Setting,
    senders: &[u8; NOTICES],
    windows: &[u64; WINDOWS],
) -> [Controller; SEATS]
    requires { MayStart (setup_in g senders.now windows.now) }
    ensures { Started (setup_in g senders.now windows.now) result records.new }
{
    let s = Setup {
        members: g.members,
        notices: g.notices,
        windows: g.windows,
    };
    let c = Controller::new();
    let mut seats = [c; SEATS];
    for k in 0..SEATS {
        let Ok(o) = c.setup(&mut records[k], k as u8, s, senders, windows) else {
            unreachable!();
        };
        seats[k] = o.controller;
    }
    seats
}

// Up to where a record is known to have every number after a line: the whole pool, or as before.
fn known(words: &[u64; POOL_WORDS], whole: bool, full: usize) -> usize
    ensures { result ≡ full_after whole (pool_len words.now) full }
{
    if whole { pool::pool_len(words) } else { full }
}

// A call on the controller c, which is lent, and stored only where the call may have changed it. It is a function of its own, and not inlined, since what a call needs of
// memory is cleared first, and most lines need no call.
#[inline(never)]
fn make_call(
    c: &mut Controller,
    turn: &mut Known,
    ids: &mut [u16; RECORD],
    words: &mut [u64; POOL_WORDS],
    line: Line,
) -> Result<Answer, Refusal>
    requires { Sound words.old ids.old × (is_call line ≡ true) }
    ensures { CallMade words.old ids.old c.old line result words.new ids.new c.new turn.new }
{
    let called = *c;
    let came = state::call(called, ids, words, line);
    let a = match came {
        Ok(o) => {
            if state::changes(o.answer) {
                *c = o.controller;
            }
            Ok(o.answer)
        }
        Err(refusal) => Err(refusal),
    };
    *turn = state::next_turn(called, line, a);
    a
}

// A line that calls the controller c: what it does, and its row.
fn run_call(
    rows: &mut [u8],
    place: Place,
    next: usize,
    c: &mut Controller,
    turn: &mut Known,
    ids: &mut [u16; RECORD],
    words: &mut [u64; POOL_WORDS],
    line: Line,
) -> Place
    requires { Sound words.old ids.old × (is_call line ≡ true) × HasRoom place next × (seat_of line < 16) × IfIdle turn.old (Rests words.old ids.old c.old) }
    ensures { CallRun words.old ids.old place next c.old line rows.old result words.new ids.new c.new turn.new rows.new }
{
    let k = seat_of(line) as u64;
    let judged = state::judge(*c, line, *turn);
    if let Some(a) = judged {
        return put_step(rows, place, next, k, a, state::number_of(a));
    }
    let a = make_call(c, turn, ids, words, line);
    put_step(rows, place, next, k, a, state::number_of(a))
}

// A line that calls no controller: what it does, and its row. The senders and windows of a setup go to the memory.
fn run_line(
    rows: &mut [u8],
    place: Place,
    ids: &mut [u16; RECORD],
    words: &mut [u64; POOL_WORDS],
    line: Line,
    text: &[u8],
    full: usize,
    senders: &mut [u8; NOTICES],
    windows: &mut [u64; WINDOWS],
) -> Moved
    requires { Sound words.old ids.old × ReadFrom line text.now × (is_call line ≡ false) × HasRoom place (length text.now + 1) × Full ids.old full }
    ensures { LineRun words.old ids.old place (seat_of line) text.now rows.old result words.new ids.new rows.new senders.new windows.new }
{
    let next = text.len() + 1;
    let g = place.setting;
    let s = state::step(ids, words, g, line, text, senders, windows);
    let on = put_step(rows, place, next, s.who, s.answer, s.number);
    Moved {
        place: Place {
            setting: s.setting,
            ..on
        },
        fresh: s.fresh,
        full: known(words, s.whole, full),
    }
}

// Where a run stands at first: the rows stand after the header.
fn first() -> Place
    ensures { AtStart result }
{
    let none = Setting {
        ready: false,
        faulty: 0,
        members: 0,
        notices: 1,
        windows: 0,
    };
    Place {
        setting: none,
        at: 0,
        n: 1,
        out: row::HEADER,
    }
}

// Beside `run_lines`, which it keeps shorter.
fn end_of(out: usize, controller: Controller, ids: [u16; RECORD]) -> Ended
    ensures { (result.out ≡ out) × (result.controller ≡ controller) × (result.ids ≡ ids) }
{
    Ended {
        out,
        controller,
        ids,
    }
}

// The rows of a schedule's lines, after the header, and one controller after the last line. The pool is in lent memory.
fn run_lines(schedule: &[u8], rows: &mut [u8], words: &mut [u64; POOL_WORDS], who: usize) -> Ended
    requires { (length schedule.now ≤ 65536) × (who < 16) }
    ensures { Ran schedule.now rows.old rows.new who result words.new }
{
    let c = Controller::new();
    let mut seats = [c; SEATS];
    let mut records = [[0u16; RECORD]; SEATS];
    // The record of controller k is known to have every number below full[k].
    let mut full = [0usize; SEATS];
    // A turn that finds nothing to do, and waits for no window, finds nothing again until its controller or its record changes.
    let mut turns: [Known; SEATS] = [None; SEATS];
    pool::clear(words);
    let mut place = first();
    while place.at < schedule.len() {
        let at = place.at;
        let read = line::read_line(&schedule[at..]);
        let next = read.next;
        let Some(line) = read.parsed else {
            place = put_unreadable(rows, place, next);
            continue;
        };
        let k = seat_of(line);
        // No other line looks at a controller, so that none is copied.
        if state::is_call(line) {
            place = run_call(
                rows,
                place,
                next,
                &mut seats[k],
                &mut turns[k],
                &mut records[k],
                words,
                line,
            );
            continue;
        }
        // Nothing changes, and most lines of a long honest schedule are such.
        if state::lacks_nothing(line, place.setting, words, full[k]) {
            place = put_line(rows, place, next, k as u64, Word::Taken, Value::Number(0));
            continue;
        }
        let text = &schedule[at..at + next - 1];
        let mut senders = [0u8; NOTICES];
        let mut windows = [0u64; WINDOWS];
        let s = run_line(
            rows,
            place,
            &mut records[k],
            words,
            line,
            text,
            full[k],
            &mut senders,
            &mut windows,
        );
        place = s.place;
        full[k] = s.full;
        turns[k] = None;
        if s.fresh {
            seats = start_all(&mut records, place.setting, &senders, &windows);
            full = [0usize; SEATS];
            turns = [None; SEATS];
        }
    }
    end_of(place.out, seats[who], records[who])
}

// The only row of a schedule that is not run.
fn put_refused(rows: &mut [u8]) -> usize
    ensures { Wrote rows.old 22 refused_row result rows.new × (length refused_row ≤ 40) }
{
    row::put_row_within(
        rows,
        row::HEADER,
        0,
        NOBODY,
        Word::Refused,
        Value::Number(UNREADABLE),
    )
}

// A schedule that is not run: its only row, a controller that is not set up, and an empty record.
fn not_run(rows: &mut [u8]) -> Ended
    ensures { NotRun rows.old result rows.new }
{
    let out = put_refused(rows);
    let c = Controller::new();
    end_of(out, c, [0u16; RECORD])
}

// Of the rows of a schedule, writes what has room, and answers how many bytes they all have, with one controller after its last line and its record.
// No schedule has more than 65,536 lines, and no row more than 40 bytes.
fn run_with(schedule: &[u8], rows: &mut [u8], words: &mut [u64; POOL_WORDS], who: usize) -> Ended
    requires { who < 16 }
    ensures { RanWith schedule.now rows.old who result rows.new words.new }
{
    row::put_header(rows);
    if schedule.is_empty() || schedule.len() > SCHEDULE_MAX {
        return not_run(rows);
    }
    run_lines(schedule, rows, words, who)
}

// The rows alone.
fn run_rows(schedule: &[u8], rows: &mut [u8]) -> usize
    ensures { PrintedInto schedule.now rows.old result rows.new }
{
    let mut words = [0u64; POOL_WORDS];
    let e = run_with(schedule, rows, &mut words, 0);
    e.out
}

// How many bytes the rows of a schedule have.
fn rows_length(schedule: &[u8]) -> usize
    ensures { Long schedule.now result }
{
    let mut none = [0u8; 1];
    run_rows(schedule, &mut none)
}

// The rows over memory that may be too short for them, so that the schedule is run once more, for their length alone.
fn run_short(schedule: &[u8], rows: &mut [u8]) -> usize
    ensures { Answered schedule.now rows.old result rows.new }
{
    if rows_length(schedule) > rows.len() {
        return 0;
    }
    run_rows(schedule, rows)
}

// Writes the rows of a schedule from the start of `rows`, and answers how many bytes they have; 0, and `rows` as it was, where they have no room.
pub fn run(schedule: &[u8], rows: &mut [u8]) -> usize
    ensures { Answered schedule.now rows.old result rows.new }
{
    if rows.len() < ROWS_MAX {
        return run_short(schedule, rows);
    }
    run_rows(schedule, rows)
}

// Controller k after the last line of a schedule. Its record is left in `ids`, over the pool in `words`; what these had before does not matter.
// A schedule that is empty or too long is not run. There is no controller above 15: it is answered as one that is not set up, with an empty record.
pub fn after(
    schedule: &[u8],
    k: u8,
    ids: &mut [u16; RECORD],
    words: &mut [u64; POOL_WORDS],
) -> Controller
    ensures { SeatAfter schedule.now k result words.new ids.new }
{
    let mut none = [0u8; 1];
    let seat = k as usize;
    // A run is asked for a seat that there is; what it answers for another number is not used.
    let e = run_with(schedule, &mut none, words, seat % SEATS);
    if seat >= SEATS {
        pool::record_clear(ids);
        return Controller::new();
    }
    let left = e.ids;
    *ids = left;
    e.controller
}
