// What a line does to the record of the controller that it names.
ghost use Rattle.std.specs.Prelude.{◌≡◌, true, ◌+◌, ◌≤◌, length, MatchOption};
ghost use Rattle.bench.specs.Seats.{Sound, has_number, NumbersBelow, NumberMarks, Marked, FirstFree, unmarked, RecordFilled, refused_for, taken_as, Gives, GivesAll};

use engine::{Answer, Refusal};
use pool::{CAPACITY, POOL_WORDS, RECORD};

// What was answered, the number that its row may need, and whether the record has all of the pool.
#[derive(Clone, Copy)]
pub struct Given {
    pub answer: Result<Answer, Refusal>,
    pub number: u64,
    pub whole: bool,
}

pub fn refused(r: Refusal) -> Given
    ensures { result ≡ refused_for r }
{
    Given {
        answer: Err(r),
        number: 0,
        whole: false,
    }
}

pub fn taken(n: u64, whole: bool) -> Given
    ensures { result ≡ taken_as n whole }
{
    Given {
        answer: Ok(Answer::Taken),
        number: n,
        whole,
    }
}

// Whether a record has the number n. The pool's statements differ, so that it has the statement just where it has the number.
fn has_number(ids: &[u16; RECORD], n: u16) -> bool
    ensures { result ≡ has_number ids.now n }
{
    let end = pool::record_length(ids);
    ids[..end].contains(&n)
}

// Which numbers a record has.
fn marks_of(ids: &[u16; RECORD]) -> [bool; CAPACITY]
    requires { NumbersBelow ids.now 512 }
    ensures { NumberMarks ids.now result }
{
    let end = pool::record_length(ids);
    let mut marks = [false; CAPACITY];
    for id in &ids[..end] {
        marks[usize::from(*id)] = true;
    }
    marks
}

// Whether the eight numbers from i on have marks.
fn has_eight(marks: &[bool; CAPACITY], i: usize) -> bool
    requires { i + 8 ≤ 512 }
    ensures { result ≡ true → Marked marks.now i (i + 8) }
{
    let a = marks[i] & marks[i + 1] & marks[i + 2] & marks[i + 3];
    a & marks[i + 4] & marks[i + 5] & marks[i + 6] & marks[i + 7]
}

// Passes over marks, eight at a time: most statements are there already.
fn skip_eights(marks: &[bool; CAPACITY], from: usize, n: usize) -> usize
    requires { (from ≤ n) × (n ≤ 512) }
    ensures { (from ≤ result) × (result ≤ n) × Marked marks.now from result }
{
    let mut i = from;
    while i + 8 <= n && has_eight(marks, i) {
        i += 8;
    }
    i
}

// The first number from `from` on, below n, that has no mark.
fn first_free(marks: &[bool; CAPACITY], from: usize, n: usize) -> Option<usize>
    requires { (from ≤ n) × (n ≤ 512) }
    ensures { MatchOption result (Marked marks.now from n) (λ free. FirstFree marks.now from n free) }
{
    for i in skip_eights(marks, from, n)..n {
        if !marks[i] {
            return Some(i);
        }
    }
    None
}

// How many numbers below n have no mark.
fn count_free(marks: &[bool; CAPACITY], n: usize) -> usize
    requires { n ≤ 512 }
    ensures count { result ≡ length (unmarked marks.now n) }
    ensures most { result ≤ n }
{
    let mut count = 0;
    let mut from = 0;
    while let Some(free) = first_free(marks, from, n) {
        count += 1;
        from = free + 1;
    }
    count
}

// Every number below n that has no mark goes to the end of the record, rising.
fn fill(ids: &mut [u16; RECORD], marks: &[bool; CAPACITY], n: usize)
    requires { n ≤ 512 }
    ensures { RecordFilled ids.old marks.now n ids.new }
{
    let mut from = 0;
    while let Some(free) = first_free(marks, from, n) {
        pool::record_push(ids, free as u16);
        from = free + 1;
    }
}

// Statement n goes to the end of a record.
pub fn give(ids: &mut [u16; RECORD], words: &[u64; POOL_WORDS], ready: bool, n: u64) -> Given
    requires { Sound words.now ids.old }
    ensures { Gives words.now ids.old ready n result ids.new }
{
    if !ready || n >= pool::pool_len(words) as u64 {
        return refused(Refusal::OutOfPlace);
    }
    if has_number(ids, n as u16) {
        return refused(Refusal::Repeated);
    }
    if pool::record_length(ids) >= CAPACITY {
        return refused(Refusal::Full);
    }
    pool::record_push(ids, n as u16);
    taken(0, false)
}

// Every statement that a record lacks goes to its end. They are counted first, since a record that has no room for all of them stays as it is.
pub fn all(ids: &mut [u16; RECORD], words: &[u64; POOL_WORDS], ready: bool) -> Given
    requires { Sound words.now ids.old }
    ensures { GivesAll words.now ids.old ready result ids.new }
{
    if !ready {
        return refused(Refusal::OutOfPlace);
    }
    let had = pool::record_length(ids);
    let marks = marks_of(ids);
    let n = pool::pool_len(words);
    let count = count_free(&marks, n);
    if count == 0 {
        return taken(0, true);
    }
    if had + count > CAPACITY {
        return refused(Refusal::Full);
    }
    fill(ids, &marks, n);
    taken(count as u64, true)
}
