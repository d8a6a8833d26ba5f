// The verdicts on all choices and all agreements, and what follows from them.
ghost use Rattle.std.specs.Prelude.{◌≡◌, ℕ, ◌+◌};
ghost use Rattle.protocol.specs.Grounds.{is_top};
ghost use Rattle.views.specs.View.{view_of, ring_of_word};
ghost use Rattle.pool.specs.Pool.{record_in};
ghost use Rattle.votes.specs.Tables.{Tables};
ghost use Rattle.sealing.specs.Memos.{Verdicts, VerdictsHeld, Memos, Later, RememberedFrom, Blank};

use crate::cycle::MEMO;
use crate::{Verdict, cycle};
use pool::{POOL_WORDS, RECORD};
use tables::{CAPACITY, KEYS, ROWS};
use votes::{AGREEMENTS, CHOICES, Counts};

// Finds the verdict on each choice.
fn judge_choices(
    words: &[u64; POOL_WORDS],
    ids: &[u16; RECORD],
    init: u64,
    keys: &[u64; KEYS],
    rows: &[u16; ROWS],
    memo: &mut [Verdict; MEMO],
    choices: usize,
)
    requires { ((agreement_count : ℕ) × Tables words.now (record_in words.now ids.now) init keys.now rows.now choices agreement_count) × Memos words.now (record_in words.now ids.now) init keys.now rows.now memo.old }
    ensures { Later words.now (record_in words.now ids.now) init keys.now rows.now memo.old memo.new × RememberedFrom 0 choices memo.new }
{
    for c in 0..choices {
        let v = tables::key(keys, CHOICES, c);
        let yes = cycle::candidate(words, ids, init, keys, rows, memo, v);
        memo[c] = Verdict::of(yes);
    }
}

// Finds the verdict on each agreement.
fn judge_agreements(
    words: &[u64; POOL_WORDS],
    ids: &[u16; RECORD],
    init: u64,
    keys: &[u64; KEYS],
    rows: &[u16; ROWS],
    memo: &mut [Verdict; MEMO],
    agreements: usize,
)
    requires { ((choice_count : ℕ) × Tables words.now (record_in words.now ids.now) init keys.now rows.now choice_count agreements) × Memos words.now (record_in words.now ids.now) init keys.now rows.now memo.old }
    ensures { Later words.now (record_in words.now ids.now) init keys.now rows.now memo.old memo.new × RememberedFrom 512 (512 + agreements) memo.new }
{
    for a in 0..agreements {
        let yes = cycle::sealed(words, ids, init, keys, rows, memo, a);
        memo[CAPACITY + a] = Verdict::of(yes);
    }
}

// All verdicts, into a memory in which nothing is remembered yet.
pub fn verdicts(
    words: &[u64; POOL_WORDS],
    ids: &[u16; RECORD],
    init: u64,
    keys: &[u64; KEYS],
    rows: &[u16; ROWS],
    memo: &mut [Verdict; MEMO],
    counts: Counts,
)
    requires { Tables words.now (record_in words.now ids.now) init keys.now rows.now counts.choices counts.agreements × Blank memo.old }
    ensures { Verdicts words.now (record_in words.now ids.now) init keys.now rows.now counts.choices counts.agreements memo.new }
{
    judge_choices(words, ids, init, keys, rows, memo, counts.choices);
    judge_agreements(words, ids, init, keys, rows, memo, counts.agreements);
}

// Whether t is a sealed top, by the verdicts.
pub fn is_sealed_top(
    words: &[u64; POOL_WORDS],
    ids: &[u16; RECORD],
    init: u64,
    keys: &[u64; KEYS],
    rows: &[u16; ROWS],
    memo: &[Verdict; MEMO],
    t: u64,
) -> bool
    requires { VerdictsHeld words.now (record_in words.now ids.now) init keys.now rows.now memo.now }
    ensures { result ≡ is_top (ring_of_word init) (record_in words.now ids.now) (view_of t) }
{
    if t == init {
        return true;
    }
    let mut agreement = tables::first(keys, rows, AGREEMENTS, t);
    while let Some(a) = agreement {
        if memo[CAPACITY + a].is_yes() {
            return true;
        }
        agreement = tables::next(keys, rows, AGREEMENTS, a);
    }
    false
}
