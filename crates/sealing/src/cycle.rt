// Candidates rest on sealed tops, and sealed histories on candidates and on sealed tops: two functions that call each other.
//
// What falls from call to call is twice the size of the view, or twice the size of the history's top and one more. A size is at most 32, so that the
// first call has at most 2 * 32 + 1 and at most 66 calls are open at once; compiled, each takes less than 200 bytes of stack, 13 KiB in all.
// Each verdict, yes or no, is remembered, so that none is found out twice: on the view of a choice at its newest choice, on agreement a behind those, at CAPACITY + a.
ghost use Rattle.std.specs.Prelude.{◌≡◌};
ghost use Rattle.protocol.specs.Evidence.{is_candidate};
ghost use Rattle.views.specs.View.{view_of, ring_of_word};
ghost use Rattle.pool.specs.Pool.{record_in};
ghost use Rattle.votes.specs.Tables.{seals_at};
ghost use Rattle.sealing.specs.Memos.{Tabled, Among, Memos, Later};

use crate::{Verdict, rows};
use pool::{POOL_WORDS, RECORD};
use tables::{CAPACITY, KEYS, ROWS};
use votes::{AGREEMENTS, CHOICES};

// How many verdicts are remembered: one for each row of the two tables.
pub const MEMO: usize = KEYS;

// Whether v is a candidate: it is the initial view, or was chosen at a sealed top.
#[cycle(candidate_sealed)]
pub fn candidate(
    words: &[u64; POOL_WORDS],
    ids: &[u16; RECORD],
    init: u64,
    keys: &[u64; KEYS],
    rows: &[u16; ROWS],
    memo: &mut [Verdict; MEMO],
    v: u64,
) -> bool
    requires { Tabled words.now (record_in words.now ids.now) init keys.now rows.now × Memos words.now (record_in words.now ids.now) init keys.now rows.now memo.old }
    ensures { (result ≡ is_candidate (ring_of_word init) (record_in words.now ids.now) (view_of v)) × Later words.now (record_in words.now ids.now) init keys.now rows.now memo.old memo.new }
{
    if v == init {
        return true;
    }
    let Some(f) = tables::first(keys, rows, CHOICES, v) else {
        return false;
    };
    if let Some(yes) = memo[f].known() {
        return yes;
    }
    let mut choice = Some(f);
    while let Some(x) = choice {
        let t = rows::at(words, rows, CHOICES, x);
        if t == init {
            memo[f] = Verdict::Yes;
            return true;
        }
        let mut agreement = tables::first(keys, rows, AGREEMENTS, t);
        while let Some(y) = agreement {
            if sealed(words, ids, init, keys, rows, memo, y) {
                memo[f] = Verdict::Yes;
                return true;
            }
            agreement = tables::next(keys, rows, AGREEMENTS, y);
        }
        choice = tables::next(keys, rows, CHOICES, x);
    }
    memo[f] = Verdict::No;
    false
}

// Whether agreement a seals its history: all its views are candidates, and the view at which it was agreed to is a sealed top.
#[cycle(candidate_sealed)]
pub fn sealed(
    words: &[u64; POOL_WORDS],
    ids: &[u16; RECORD],
    init: u64,
    keys: &[u64; KEYS],
    rows: &[u16; ROWS],
    memo: &mut [Verdict; MEMO],
    a: usize,
) -> bool
    requires { Among words.now (record_in words.now ids.now) init keys.now rows.now a × Memos words.now (record_in words.now ids.now) init keys.now rows.now memo.old }
    ensures { (result ≡ seals_at words.now (record_in words.now ids.now) init keys.now rows.now a) × Later words.now (record_in words.now ids.now) init keys.now rows.now memo.old memo.new }
{
    if let Some(yes) = memo[CAPACITY + a].known() {
        return yes;
    }
    let n = tables::number(rows, AGREEMENTS, a);
    for p in 0..pool::count(words, n) {
        let v = pool::nth(words, n, p);
        if !candidate(words, ids, init, keys, rows, memo, v) {
            memo[CAPACITY + a] = Verdict::No;
            return false;
        }
    }
    let t = pool::at(words, n);
    if t == init {
        memo[CAPACITY + a] = Verdict::Yes;
        return true;
    }
    let mut agreement = tables::first(keys, rows, AGREEMENTS, t);
    while let Some(y) = agreement {
        if sealed(words, ids, init, keys, rows, memo, y) {
            memo[CAPACITY + a] = Verdict::Yes;
            return true;
        }
        agreement = tables::next(keys, rows, AGREEMENTS, y);
    }
    memo[CAPACITY + a] = Verdict::No;
    false
}
