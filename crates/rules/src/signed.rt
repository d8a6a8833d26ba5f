// What a controller has signed, by its record, and of which notices.
ghost use Rattle.std.specs.Prelude.{◌≡◌, Bool, List, ℕ, ◌<◌, MatchOption};
ghost use Rattle.protocol.specs.Lists.{any};
ghost use Rattle.protocol.specs.Statement.{Stmt};
ghost use Rattle.views.specs.View.{view_of};
ghost use Rattle.views.specs.Held.{view_is};
ghost use Rattle.views.specs.Options.{option_of};
ghost use Rattle.pool.specs.Pool.{stmt_at, record_in};
ghost use Rattle.statements.specs.Kind.{kind_number};
ghost use Rattle.rules.specs.Rules.{own_kind, own_at, own_of, own_of_at, prepared_by, prepared_in, sent_by, first_prepare, Owns, Marks, Picks, PicksEach, Misses, Least};

use pool::{CAPACITY, POOL_WORDS, RECORD};
use statements::{BLOCK, Kind, NOTICES};
use views::View;

// The least notice of the set that is below `notices`.
pub fn least(set: u64, notices: usize) -> Option<usize>
    ensures { MatchOption result (Misses set notices) (Least set notices) }
{
    let j = statements::next_in(set, 0);
    if j < notices.min(NOTICES) {
        Some(j)
    } else {
        None
    }
}

// Whether statement n is one of controller k, of this kind.
fn is_own(words: &[u64; POOL_WORDS], n: u16, k: u8, kind: Kind) -> bool
    ensures { result ≡ own_kind k (kind_number kind) (stmt_at words.now n) }
{
    pool::origin(words, n) == u64::from(k) && pool::kind(words, n) == kind as u64
}

// Whether it is at t too.
fn is_own_at(words: &[u64; POOL_WORDS], n: u16, k: u8, kind: Kind, t: u64) -> bool
    ensures { result ≡ own_at k (kind_number kind) (view_of t) (stmt_at words.now n) }
{
    is_own(words, n, k, kind) && pool::at(words, n) == t
}

// Whether the record has a statement of controller k, of this kind, at t.
pub fn signed_at(words: &[u64; POOL_WORDS], ids: &[u16; RECORD], k: u8, kind: Kind, t: u64) -> bool
    ensures { result ≡ any (own_at k (kind_number kind) (view_of t)) (record_in words.now ids.now) }
{
    ids[..pool::record_length(ids)]
        .iter()
        .any(|n| is_own_at(words, *n, k, kind, t))
}

// The notices that `pick` gives of the statements of the record.
fn marked<F: Fn(u16) -> Option<usize>>(ids: &[u16; RECORD], pick: F) -> u64
    requires { F.IsAlwaysCallable pick }
    ensures { (W : List ℕ) (q : ℕ → Stmt → Bool) → PicksEach (F.post pick) W q → Marks q (record_in W ids.now) result }
{
    let mut set = 0u64;
    for n in &ids[..pool::record_length(ids)] {
        if let Some(j) = pick(*n) {
            set = statements::with_notice(set, j);
        }
    }
    set
}

// The notice of statement n, if controller k signed it and it is of this kind.
fn notice_of(words: &[u64; POOL_WORDS], n: u16, k: u8, kind: Kind) -> Option<usize>
    ensures { Picks (own_of k (kind_number kind)) (stmt_at words.now n) result }
{
    if !is_own(words, n, k, kind) {
        return None;
    }
    Some(pool::notice(words, n) as usize)
}

// The notices of which the record has a statement of controller k, of this kind.
pub fn notices(words: &[u64; POOL_WORDS], ids: &[u16; RECORD], k: u8, kind: Kind) -> u64
    ensures { Marks (own_of k (kind_number kind)) (record_in words.now ids.now) result }
{
    marked(ids, |n| notice_of(words, n, k, kind))
}

// The notice of statement n, if it is at t too.
fn notice_at(words: &[u64; POOL_WORDS], n: u16, k: u8, kind: Kind, t: u64) -> Option<usize>
    ensures { Picks (own_of_at k (kind_number kind) (view_of t)) (stmt_at words.now n) result }
{
    if !is_own_at(words, n, k, kind, t) {
        return None;
    }
    Some(pool::notice(words, n) as usize)
}

// The notices of which the record has one that is at t too.
pub fn notices_at(words: &[u64; POOL_WORDS], ids: &[u16; RECORD], k: u8, kind: Kind, t: u64) -> u64
    ensures { Marks (own_of_at k (kind_number kind) (view_of t)) (record_in words.now ids.now) result }
{
    marked(ids, |n| notice_at(words, n, k, kind, t))
}

// The notice of statement n, if it is a prepare by the notice's sender and that is a member of t.
fn prepared_by(words: &[u64; POOL_WORDS], n: u16, senders: &[u8; NOTICES], t: View) -> Option<usize>
    ensures { Picks (prepared_in (view_is t) senders.now) (stmt_at words.now n) result }
{
    let j = pool::notice(words, n) as usize;
    if j >= NOTICES {
        return None;
    }
    let sender = senders[j];
    if is_own(words, n, sender, Kind::Prepare) && t.has_member(sender) {
        return Some(j);
    }
    None
}

// The notices that their senders prepared, of those whose senders are members of t.
pub fn prepared(
    words: &[u64; POOL_WORDS],
    ids: &[u16; RECORD],
    senders: &[u8; NOTICES],
    t: View,
) -> u64
    ensures { Marks (prepared_in (view_is t) senders.now) (record_in words.now ids.now) result }
{
    marked(ids, |n| prepared_by(words, n, senders, t))
}

// The notice of statement n, if it is the prepare by controller k that was requested.
fn sent_by(
    words: &[u64; POOL_WORDS],
    n: u16,
    k: u8,
    block: &[u64; BLOCK],
    sends: &[u64; NOTICES],
) -> Option<usize>
    ensures { Picks (sent_by k sends.now) (stmt_at words.now n) result }
{
    let j = pool::notice(words, n) as usize;
    if pool::kind(words, n) != Kind::Prepare as u64 || j >= NOTICES {
        return None;
    }
    if pool::same_at(words, n, statements::prepare(k, j as u8, sends[j]), block) {
        return Some(j);
    }
    None
}

// The notices of which the record has the prepare that was requested.
pub fn sent(
    words: &[u64; POOL_WORDS],
    ids: &[u16; RECORD],
    k: u8,
    block: &[u64; BLOCK],
    sends: &[u64; NOTICES],
) -> u64
    ensures { Marks (sent_by k sends.now) (record_in words.now ids.now) result }
{
    marked(ids, |n| sent_by(words, n, k, block, sends))
}

// Whether statement n is a prepare of notice j by its sender.
fn is_prepare(words: &[u64; POOL_WORDS], n: u16, sender: u8, j: usize) -> bool
    ensures { result ≡ prepared_by sender j (stmt_at words.now n) }
{
    is_own(words, n, sender, Kind::Prepare) && pool::notice(words, n) as usize == j
}

// The payload of the first prepare of notice j by its sender in the record.
pub fn first_prepare(
    words: &[u64; POOL_WORDS],
    ids: &[u16; RECORD],
    sender: u8,
    j: usize,
) -> Option<u64>
    ensures { result ≡ option_of (first_prepare sender j (record_in words.now ids.now)) }
{
    for n in &ids[..pool::record_length(ids)] {
        if is_prepare(words, *n, sender, j) {
            return Some(pool::payload(words, *n));
        }
    }
    None
}

// Fills `own` with the statements of controller k in the record, for the rules that ask for no others: they are few.
// Every number is written, and stays only if it counts, so that the loop has no branch.
pub fn own_of(words: &[u64; POOL_WORDS], ids: &[u16; RECORD], k: u8, own: &mut [u16; RECORD])
    ensures { Owns (record_in words.now ids.now) (record_in words.now own.new) k }
{
    pool::record_clear(own);
    let mut count = 0usize;
    for n in &ids[..pool::record_length(ids)] {
        let mine = pool::origin(words, *n) == u64::from(k);
        own[count] = *n;
        count += usize::from(mine);
    }
    own[CAPACITY] = count as u16;
}
