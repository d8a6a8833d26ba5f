// The sealed histories, of which the greatest, and what they skip of it. Those of which one holds the other differ in length, so a slot for each length holds them.
ghost use Rattle.std.specs.Prelude.{◌≡◌, true, List, ℕ, ◌≤◌, ◌<◌, length, MatchOption};
ghost use Rattle.protocol.specs.History.{holds, top};
ghost use Rattle.protocol.specs.Statement.{Stmt};
ghost use Rattle.protocol.specs.Evidence.{passes_over};
ghost use Rattle.pool.specs.Pool.{stmt_at};
ghost use Rattle.views.specs.View.{view_of, ring_of_word, views_of};
ghost use Rattle.ranking.specs.Slots.{history_scale, number_in, occupied, Starts, Slots, Filled, Broken};
ghost use Rattle.ranking.specs.Ranking.{Unmarked, FirstMarked, ChainOf, PassedToo, PassedOf, SkippedOf, MarkedAgreements, MarkedBytes, HistoriesOf};

use crate::Summit;
use crate::marks::Marks;
use pool::POOL_WORDS;
use sealing::MEMO;
use tables::ROWS;
use views::View;
use votes::AGREEMENTS;

// Histories have this many lengths, that of none among them.
const LENGTHS: usize = View::LIMIT + 1;

// Of a chain of histories, whether each starts with all views of the one before, so that none is skipped; and the pool number of the last.
#[derive(Clone, Copy)]
struct Links {
    steady: bool,
    last: u16,
}

// Whether statement i has every view of statement j.
fn has_views(words: &[u64; POOL_WORDS], i: u16, j: u16) -> bool
    ensures { result ≡ holds (stmt_at words.now i).views (stmt_at words.now j).views }
{
    for p in 0..pool::count(words, j) {
        if !pool::has_view(words, i, pool::nth(words, j, p)) {
            return false;
        }
    }
    true
}

// Whether statement i starts with the views of statement j. Most histories do with those that were sealed before them.
fn starts_with(words: &[u64; POOL_WORDS], i: u16, j: u16) -> bool
    ensures { result ≡ true → Starts (stmt_at words.now i).views (stmt_at words.now j).views }
{
    let c = pool::count(words, j);
    if pool::count(words, i) < c {
        return false;
    }
    for p in 0..c {
        if pool::nth(words, i, p) != pool::nth(words, j, p) {
            return false;
        }
    }
    true
}

// The first agreement that is marked.
fn first_marked<M: Marks>(memo: &M, agreements: usize) -> Option<usize>
    requires { agreements ≤ 512 }
    ensures { MatchOption result (Unmarked (M.seals memo.now) agreements) (FirstMarked (M.seals memo.now) agreements) }
{
    for a in 0..agreements {
        if memo.seals(a) {
            return Some(a);
        }
    }
    None
}

// Puts the histories of the marked agreements into the slots of their lengths; false where two of one length differ.
fn fill_lengths<M: Marks>(
    words: &[u64; POOL_WORDS],
    rows: &[u16; ROWS],
    memo: &M,
    agreements: usize,
    base: u16,
    slots: &mut [u16; LENGTHS],
) -> bool
    requires { (agreements ≤ 512) × Slots (history_scale words.now) base (number_in rows.now) (M.seals memo.now) 0 slots.old }
    ensures { Filled (history_scale words.now) base (number_in rows.now) (M.seals memo.now) agreements slots.new result }
{
    for a in 0..agreements {
        if !memo.seals(a) {
            continue;
        }
        let n = tables::number(rows, AGREEMENTS, a);
        let k = pool::count(words, n);
        let m = slots[k];
        if pool::count(words, m) != k {
            slots[k] = n;
            continue;
        }
        if !pool::same_views(words, m, n) {
            return false;
        }
    }
    true
}

// The histories in the slots as a chain, if every two of them hold one the other: it is enough that each is held by the next.
fn link_lengths(words: &[u64; POOL_WORDS], slots: &[u16; LENGTHS]) -> Option<Links>
    ensures { MatchOption result (Broken (history_scale words.now) slots.now 17) (λ l. ChainOf words.now slots.now l.steady l.last) }
{
    let mut steady = true;
    let mut last = None;
    for k in 0..LENGTHS {
        let n = slots[k];
        if pool::count(words, n) != k {
            continue;
        }
        if let Some(m) = last {
            if !starts_with(words, n, m) {
                if !has_views(words, n, m) {
                    return None;
                }
                steady = false;
            }
        }
        last = Some(n);
    }
    Some(Links {
        steady,
        last: last.unwrap_or(0),
    })
}

// Whether the history of statement n, whose top is t, passes over u.
fn passes_over(words: &[u64; POOL_WORDS], n: u16, t: u64, u: u64) -> bool
    ensures { (init : ℕ) → view_of t ≡ top (ring_of_word init) (stmt_at words.now n).views → result ≡ passes_over (ring_of_word init) (view_of u) (stmt_at words.now n).views }
{
    views::below_view(u, t) && !pool::has_view(words, n, u)
}

// The set `seen`, and the places too, among the first m views of a list, of those that the history of statement n passes over.
fn passed_by(
    words: &[u64; POOL_WORDS],
    n: u16,
    init: u64,
    list: &[u64; View::LIMIT],
    m: usize,
    seen: u32,
) -> u32
    requires { m ≤ 16 }
    ensures { PassedToo (ring_of_word init) (stmt_at words.now n).views list.now m seen result }
{
    let t = pool::top_view(words, n, init);
    let mut all = seen;
    for i in 0..m {
        let hit = passes_over(words, n, t, list[i]);
        all = views::note(all, hit, i as u64);
    }
    all
}

// The places, among the first m views of a list, of those that a history in the slots passes over that has fewer views than these.
fn passed(
    words: &[u64; POOL_WORDS],
    slots: &[u16; LENGTHS],
    init: u64,
    list: &[u64; View::LIMIT],
    m: usize,
) -> u32
    requires { m ≤ 16 }
    ensures { PassedOf (ring_of_word init) (occupied (history_scale words.now) slots.now m) list.now m result }
{
    let mut seen = 0u32;
    for k in 0..m {
        let n = slots[k];
        if pool::count(words, n) == k {
            seen = passed_by(words, n, init, list, m, seen);
        }
    }
    seen
}

// The same, where a chain that is steady passes over nothing.
fn skipped(
    words: &[u64; POOL_WORDS],
    slots: &[u16; LENGTHS],
    init: u64,
    list: &[u64; View::LIMIT],
    m: usize,
    steady: bool,
) -> u32
    requires { m ≤ 16 }
    ensures { SkippedOf (ring_of_word init) (occupied (history_scale words.now) slots.now m) list.now m steady result }
{
    if steady {
        return 0;
    }
    passed(words, slots, init, list, m)
}

// That two histories are apart.
fn apart() -> Summit
    ensures { result ≡ record { conflict = true; length = 0; skipped = 0 } }
{
    Summit {
        conflict: true,
        length: 0,
        skipped: 0,
    }
}

// Copies the views of statement n: how many.
fn copy_views(words: &[u64; POOL_WORDS], n: u16, out: &mut [u64; View::LIMIT]) -> usize
    requires { length out.old ≡ 16 }
    ensures { views_of out.new result ≡ (stmt_at words.now n).views }
{
    let c = pool::count(words, n);
    for p in 0..c {
        out[p] = pool::nth(words, n, p);
    }
    c
}

// The greatest sealed history of a record, of whose agreements, so many, `memo` marks those that seal theirs, into `out`, and the places in it of the views that are skipped.
pub fn greatest_history<M: Marks>(
    words: &[u64; POOL_WORDS],
    rows: &[u16; ROWS],
    memo: &M,
    agreements: usize,
    init: u64,
    out: &mut [u64; View::LIMIT],
) -> Summit
    requires { agreements ≤ 512 }
    ensures { (X : List Stmt) → MarkedAgreements init X words.now rows.now (M.seals memo.now) agreements → HistoriesOf init X out.new result }
{
    let Some(a) = first_marked(memo, agreements) else {
        out[0] = init;
        return Summit {
            conflict: false,
            length: 1,
            skipped: 0,
        };
    };
    let base = tables::number(rows, AGREEMENTS, a);
    let mut slots = [base; LENGTHS];
    if !fill_lengths(words, rows, memo, agreements, base, &mut slots) {
        return apart();
    }
    let Some(links) = link_lengths(words, &slots) else {
        return apart();
    };
    let length = copy_views(words, links.last, out);
    let skipped = skipped(words, &slots, init, out, length, links.steady);
    Summit {
        conflict: false,
        length,
        skipped,
    }
}

// The same where bytes stand for verdicts: 0 for nothing yet, 1 for a yes, which marks, and another for a no.
pub fn climb(
    words: &[u64; POOL_WORDS],
    rows: &[u16; ROWS],
    memo: &[u8; MEMO],
    agreements: usize,
    init: u64,
    out: &mut [u64; View::LIMIT],
) -> Summit
    requires { agreements ≤ 512 }
    ensures { (X : List Stmt) → MarkedBytes init X words.now rows.now memo.now agreements → HistoriesOf init X out.new result }
{
    greatest_history(words, rows, memo, agreements, init, out)
}
