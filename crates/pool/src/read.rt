// The fields of statement n, and the number of statements.
#![tactic(auto, unfolding(crate::specs::Pool::head_at, crate::specs::Pool::word, crate::specs::Pool::view_word, crate::specs::Pool::stmt_at, crate::specs::Pool::count_of, crate::specs::Pool::group_count, crate::specs::Pool::told_payload, crate::specs::Pool::told_kept, crate::specs::Pool::pool_len))]

ghost use Rattle.std.specs.Prelude.{◌≡◌, ◌<◌, ◌≤◌, min, map, length};
ghost use Rattle.views.specs.View.{view_of, view_in};
ghost use Rattle.pool.specs.Pool.{payload_from, views_from, pool_words, head_at, word, view_at, stmt_at, count_of, group_count, told_bound, told_barred, told_stored, told_payload, told_kept, pool_len};
ghost use Rattle.pool.specs.Changes.{head_of};

use crate::{
    AT, BARRED, BOUND, BYTE, CAPACITY, COUNT, GROUPS, HIGHEST, KEY, LAST, NOTICE, ORIGIN, PAIRS,
    PAYLOAD, POOL_WORDS, STORED, TOLD, VIEW, VIEWS,
};
use statements::NOTICES;
use views::View;

// Where statement n is in its column. The number is bounded first, since the compiler then reads each column in one step.
pub fn slot(n: u16) -> usize
    ensures { (result ≡ min n 511) × (result ≤ 511) }
{
    usize::from(n).min(HIGHEST)
}

// The head of statement n.
fn head_word(words: &[u64; POOL_WORDS], n: u16) -> u64
    ensures { result ≡ head_at words.now n }
{
    words[slot(n)]
}

// The word of statement n in the column that starts at word f.
fn field(words: &[u64; POOL_WORDS], n: u16, f: usize) -> u64
    requires { f < views_from }
    ensures { result ≡ word words.now n f }
{
    words[slot(n) + f]
}

pub fn kind(words: &[u64; POOL_WORDS], n: u16) -> u64
    ensures { (result ≡ (stmt_at words.now n).kind) × (result < 256) }
{
    head_word(words, n) % BYTE
}

pub fn origin(words: &[u64; POOL_WORDS], n: u16) -> u64
    ensures { (result ≡ (stmt_at words.now n).origin) × (result < 256) }
{
    head_word(words, n) / ORIGIN % BYTE
}

pub fn notice(words: &[u64; POOL_WORDS], n: u16) -> u64
    ensures { (result ≡ (stmt_at words.now n).notice) × (result < 256) }
{
    head_word(words, n) / NOTICE % BYTE
}

// The payload of statement n, which is no report.
pub fn payload(words: &[u64; POOL_WORDS], n: u16) -> u64
    ensures { result ≡ word words.now n payload_from }
{
    field(words, n, PAYLOAD)
}

pub fn at(words: &[u64; POOL_WORDS], n: u16) -> u64
    ensures { view_of result ≡ (stmt_at words.now n).at }
{
    views::narrow(field(words, n, AT))
}

// Kind, origin and notice of statement n in one number.
pub fn head(words: &[u64; POOL_WORDS], n: u16) -> u64
    ensures { result ≡ head_of (stmt_at words.now n) }
{
    head_word(words, n) % KEY
}

pub fn view(words: &[u64; POOL_WORDS], n: u16) -> u64
    ensures { view_of result ≡ (stmt_at words.now n).view }
{
    views::narrow(field(words, n, VIEW))
}

// How many views statement n has.
pub fn count(words: &[u64; POOL_WORDS], n: u16) -> usize
    ensures { (result ≡ count_of words.now n) × (result ≤ 16) }
{
    let count = (head_word(words, n) / COUNT % BYTE) as usize;
    count.min(View::LIMIT)
}

// The words of the views of statement n. Their bits that stand for no controller are not read.
pub fn view_words(words: &[u64; POOL_WORDS], n: u16) -> &[u64]
    ensures means { map view_in result.now ≡ (stmt_at words.now n).views }
    ensures few { length result.now ≤ 16 }
{
    let start = VIEWS + slot(n) * View::LIMIT;
    &words[start..start + count(words, n)]
}

// View p of statement n.
pub fn nth(words: &[u64; POOL_WORDS], n: u16, p: usize) -> u64
    requires { p < 16 }
    ensures { view_of result ≡ view_at words.now n p }
{
    views::narrow(words[VIEWS + slot(n) * View::LIMIT + p])
}

// How many statements the pool has.
pub fn pool_len(words: &[u64; POOL_WORDS]) -> usize
    ensures { (result ≡ pool_len words.now) × (result ≤ 512) }
{
    words[LAST].min(CAPACITY as u64) as usize
}

// Of how many notices report n tells.
pub fn groups(words: &[u64; POOL_WORDS], n: u16) -> usize
    ensures { (result ≡ group_count words.now n) × (result ≤ 64) }
{
    let groups = (head_word(words, n) / GROUPS % BYTE) as usize;
    groups.min(NOTICES)
}

// The notices of which report n tells that they are bound. One that is barred too counts as barred.
pub fn bound(words: &[u64; POOL_WORDS], n: u16) -> u64
    ensures { result ≡ told_bound words.now n }
{
    field(words, n, BOUND)
}

// Those of which it tells that they are barred.
pub fn barred(words: &[u64; POOL_WORDS], n: u16) -> u64
    ensures { result ≡ told_barred words.now n }
{
    field(words, n, BARRED)
}

// Those of which it tells that a payload is stored.
pub fn stored(words: &[u64; POOL_WORDS], n: u16) -> u64
    ensures { result ≡ told_stored words.now n }
{
    field(words, n, STORED)
}

// The payload to which report n tells notice j is bound.
pub fn told_payload(words: &[u64; POOL_WORDS], n: u16, j: usize) -> u64
    requires { j < 64 }
    ensures { result ≡ told_payload words.now n j }
{
    words[TOLD + slot(n) * PAIRS + 2 * j]
}

// The payload that report n tells is kept of notice j.
pub fn told_kept(words: &[u64; POOL_WORDS], n: u16, j: usize) -> u64
    requires { j < 64 }
    ensures { result ≡ told_kept words.now n j }
{
    words[TOLD + slot(n) * PAIRS + 2 * j + 1]
}
