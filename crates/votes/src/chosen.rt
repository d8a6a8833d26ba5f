// What quorums chose and agreed to.
ghost use Rattle.std.specs.Prelude.{◌≡◌, Bool, ◌&&◌, List, ℕ, ◌<◌, eqb, get_or};
ghost use Rattle.protocol.specs.View.{View};
ghost use Rattle.protocol.specs.History.{top};
ghost use Rattle.protocol.specs.Statement.{Stmt};
ghost use Rattle.views.specs.View.{view_of, ring_of_word};
ghost use Rattle.views.specs.Tally.{missing_in, own_in};
ghost use Rattle.pool.specs.Pool.{stmt_at, record_in};
ghost use Rattle.tables.specs.Index.{Empty};
ghost use Rattle.votes.specs.Votes.{tag_by, GatheredOf};
ghost use Rattle.votes.specs.Tables.{Tables};
ghost use Rattle.votes.specs.Chosen.{choice_by, agreement_by, number_of, Placed, WordIf, Answers, OtherTables, GroupRows};

use crate::{AGREEMENTS, CHOICES, Counts, GROUPS, Gathered};
use pool::{POOL_WORDS, RECORD};
use statements::Kind;
use tables::{KEYS, ROWS};

// Whether the group x has a quorum for votes of a kind.
fn agrees_to(x: u64, kind: u64) -> bool
    ensures { result ≡ (eqb (own_in x) kind && eqb (missing_in x) 0) }
{
    views::own_of(x) == kind && views::is_complete(x)
}

// Whether the group x, which stands for statement s, is a choice within the wished view.
fn is_choice(words: &[u64; POOL_WORDS], s: u16, x: u64, wish: u64) -> bool
    requires { own_in x ≡ tag_by (stmt_at words.now s) }
    ensures { result ≡ choice_by (view_of wish) (eqb (missing_in x) 0) (stmt_at words.now s) }
{
    if !agrees_to(x, Kind::AgreeView as u64) {
        return false;
    }
    let t = pool::at(words, s);
    let v = pool::view(words, s);
    views::below_view(t, v) && views::has_members(v) && views::within_view(v, wish)
}

// The view that the group x chooses, which stands for statement s, where it is a choice within the wished view.
fn choice(words: &[u64; POOL_WORDS], s: u16, x: u64, wish: u64) -> Option<u64>
    requires { own_in x ≡ tag_by (stmt_at words.now s) }
    ensures { WordIf (choice_by (view_of wish) (eqb (missing_in x) 0) (stmt_at words.now s)) (stmt_at words.now s).view result }
{
    if !is_choice(words, s, x, wish) {
        return None;
    }
    Some(pool::view(words, s))
}

// Whether the group x, which stands for statement s, is an agreement.
fn is_agreement(words: &[u64; POOL_WORDS], s: u16, x: u64, init: u64) -> bool
    requires { own_in x ≡ tag_by (stmt_at words.now s) }
    ensures { result ≡ agreement_by (ring_of_word init) (eqb (missing_in x) 0) (stmt_at words.now s) }
{
    if !agrees_to(x, Kind::AgreeHistory as u64) {
        return false;
    }
    let t = pool::at(words, s);
    pool::has_view(words, s, t)
        && pool::top_view(words, s, init) != t
        && pool::is_history(words, s, init)
}

// The top of the history that the group x agrees to, which stands for statement s, where it is an agreement.
fn agreement(words: &[u64; POOL_WORDS], s: u16, x: u64, init: u64) -> Option<u64>
    requires { own_in x ≡ tag_by (stmt_at words.now s) }
    ensures { WordIf (agreement_by (ring_of_word init) (eqb (missing_in x) 0) (stmt_at words.now s)) (top (ring_of_word init) (stmt_at words.now s).views) result }
{
    if !is_agreement(words, s, x, init) {
        return None;
    }
    Some(pool::top_view(words, s, init))
}

// Puts the groups that `word` answers for into a table, each with the statement that it stands for and under the word that is answered. Returns how many there are.
fn enter<F: Fn(u16, u64) -> Option<u64>>(
    ids: &[u16; RECORD],
    groups: &[u64; GROUPS],
    n: usize,
    keys: &mut [u64; KEYS],
    rows: &mut [u16; ROWS],
    t: usize,
    word: F,
) -> usize
    requires table { (t < 2) × Empty rows.old t }
    requires groups { Placed groups.now n }
    requires callable { (g : ℕ) → g < n → F.pre word (number_of ids.now groups.now g) (get_or groups.now g 0) }
    ensures entered { (W : List ℕ) (of : Stmt → View) (test : Stmt → Bool) → Answers W ids.now groups.now of test n (F.post word) → GroupRows W ids.now groups.now t of test n keys.new rows.new result }
    ensures others { OtherTables t keys.old rows.old keys.new rows.new }
{
    let mut count = 0;
    for g in 0..n {
        let x = groups[g];
        let s = ids[views::place_of(x)];
        if let Some(w) = word(s, x) {
            tables::add(keys, rows, t, count, w, s);
            count += 1;
        }
    }
    count
}

// The tables of what quorums chose and agreed to, from the groups.
pub fn tabulate(
    words: &[u64; POOL_WORDS],
    ids: &[u16; RECORD],
    init: u64,
    found: Gathered,
    groups: &[u64; GROUPS],
    keys: &mut [u64; KEYS],
    rows: &mut [u16; ROWS],
) -> Counts
    requires { GatheredOf words.now ids.now init groups.now rows.old found }
    ensures { Tables words.now (record_in words.now ids.now) init keys.new rows.new result.choices result.agreements }
{
    tables::clear(rows, CHOICES);
    let choices = enter(ids, groups, found.groups, keys, rows, CHOICES, |s, x| {
        choice(words, s, x, found.wished)
    });
    let agreements = enter(ids, groups, found.groups, keys, rows, AGREEMENTS, |s, x| {
        agreement(words, s, x, init)
    });
    Counts {
        choices,
        agreements,
    }
}
