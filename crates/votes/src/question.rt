// Counting a quorum of those who voted for one thing, which ends with the signer who completes it; and who they are.
ghost use Rattle.std.specs.Prelude.{◌≡◌, ◌&&◌, eqb};
ghost use Rattle.protocol.specs.History.{same_views};
ghost use Rattle.protocol.specs.Statement.{payload_of};
ghost use Rattle.protocol.specs.Count.{count_quorum};
ghost use Rattle.protocol.specs.Signers as protocol;
ghost use Rattle.views.specs.View.{view_of, views_of};
ghost use Rattle.views.specs.Tally.{count_is};
ghost use Rattle.pool.specs.Pool.{stmt_at, record_in};
ghost use Rattle.votes.specs.Question.{asks};

use pool::{POOL_WORDS, RECORD};
use statements::Kind;
use views::{Count, View};

// What is counted: votes of a kind at a view, for a view or for the payload of a notice, as a word; or for a history of this length, which is lent beside it.
#[derive(Clone, Copy)]
pub struct Question {
    pub kind: u8,
    pub notice: u8,
    pub at: u64,
    pub what: u64,
    pub length: usize,
}

// Whether the views of statement s are the first n of a list.
fn has_views(words: &[u64; POOL_WORDS], s: u16, list: &[u64; View::LIMIT], n: usize) -> bool
    ensures { result ≡ same_views (stmt_at words.now s).views (views_of list.now n) }
{
    pool::count(words, s) == n && (0..n).all(|p| pool::nth(words, s, p) == list[p])
}

// Whether statement s, which is no report, is about the payload of the notice.
fn is_for(words: &[u64; POOL_WORDS], s: u16, notice: u8, payload: u64) -> bool
    ensures { ((stmt_at words.now s).kind ≡ 5 → ⊥) → result ≡ (eqb (stmt_at words.now s).notice notice && eqb (payload_of (stmt_at words.now s)) payload) }
{
    pool::notice(words, s) == u64::from(notice) && pool::payload(words, s) == payload
}

// Whether statement s is such a vote.
fn says(words: &[u64; POOL_WORDS], s: u16, q: Question, history: &[u64; View::LIMIT]) -> bool
    ensures { result ≡ asks q history.now (stmt_at words.now s) }
{
    if pool::kind(words, s) != u64::from(q.kind) || pool::at(words, s) != q.at {
        return false;
    }
    if q.kind == Kind::AgreeView as u8 {
        return pool::view(words, s) == q.what;
    }
    if q.kind == Kind::AgreeHistory as u8 {
        return has_views(words, s, history, q.length);
    }
    if q.kind < Kind::Ack as u8 || q.kind > Kind::Store as u8 {
        return false;
    }
    is_for(words, s, q.notice, q.what)
}

// Whether a quorum signed such votes, and how many statements of the record were read.
pub fn count(
    words: &[u64; POOL_WORDS],
    ids: &[u16; RECORD],
    q: Question,
    history: &[u64; View::LIMIT],
) -> Count
    ensures { count_is result ≡ count_quorum 16 (view_of q.at) (asks q history.now) (record_in words.now ids.now) }
{
    let end = pool::record_length(ids);
    let mut a = views::unsigned(q.at, 0, 0);
    for i in 0..end {
        let s = ids[i];
        if !says(words, s, q, history) {
            continue;
        }
        a = views::sign(a, pool::origin(words, s), i);
        if views::is_complete(a) {
            return Count {
                reached: true,
                read: i + 1,
            };
        }
    }
    Count {
        reached: false,
        read: end,
    }
}

// The members of the view that signed such votes, all of them: it reads the whole record.
pub fn signers(
    words: &[u64; POOL_WORDS],
    ids: &[u16; RECORD],
    q: Question,
    history: &[u64; View::LIMIT],
) -> u32
    ensures { result ≡ protocol.signers 16 (record_in words.now ids.now) (view_of q.at) (asks q history.now) }
{
    let end = pool::record_length(ids);
    let mut seen = 0u32;
    for i in 0..end {
        let s = ids[i];
        if !says(words, s, q, history) {
            continue;
        }
        seen = views::note(seen, true, pool::origin(words, s));
    }
    views::members_among(q.at, seen)
}
