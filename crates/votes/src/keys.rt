// The three words of a vote.
ghost use Rattle.std.specs.Prelude.{◌≡◌, true, ◌<◌};
ghost use Rattle.pool.specs.Pool.{stmt_at};
ghost use Rattle.votes.specs.Votes.{is_vote, tag_by};
ghost use Rattle.votes.specs.Keys.{folded, weight_of, mix_from, what_of, same_names, Key, slot_by};

use pool::POOL_WORDS;
use statements::Kind;

// What the low half of a word is below, and its lowest quarter.
const HALF: u64 = 4294967296;

const QUARTER: u64 = 65536;

// What the two parts of a slot's mix are multiplied by.
const AT_FACTOR: u64 = 1640531527;

const WHAT_FACTOR: u64 = 668265263;

// How often the first view of a history counts in its mix, and how much more often each that follows.
const FIRST_WEIGHT: u64 = 2053;

const NEXT_WEIGHT: u64 = 128;

// Where the notice stands in a tag: above the kind.
const NOTICE: u64 = 256;

// A vote by its pool number, with the word of the view at which it was signed, what it is for, and its tag.
#[derive(Clone, Copy)]
pub struct Vote {
    pub number: u16,
    pub at: u64,
    pub what: u64,
    pub tag: u64,
}

// Whether statement n is a vote.
#[tactic(auto, unfolding(crate::specs::Votes::is_vote, protocol::specs::Statement::is_kind))]
pub fn is_vote(words: &[u64; POOL_WORDS], n: u16) -> bool
    ensures { result ≡ is_vote (stmt_at words.now n) }
{
    let k = pool::kind(words, n);
    // Without a branch: with one a compiler asks a table bit by bit.
    (k == Kind::AgreeView as u64)
        | (k == Kind::AgreeHistory as u64)
        | (k == Kind::Ack as u64)
        | (k == Kind::Store as u64)
}

// A word in 32 bits. It tells all views of the sixteen controllers apart: who left stands above who joined.
#[tactic(auto, unfolding(crate::specs::Keys::folded))]
fn fold(x: u64) -> u64
    ensures { (result ≡ folded x) × (result < 4294967296) }
{
    (x % HALF + x / QUARTER) % HALF
}

// How often the view at place p counts in a mix.
#[tactic(auto, unfolding(crate::specs::Keys::weight_of))]
fn weight(p: usize) -> u64
    requires { p < 16 }
    ensures { (result ≡ weight_of p) × (result < 4096) }
{
    FIRST_WEIGHT + p as u64 * NEXT_WEIGHT
}

// The mix of the views of statement n. It is a sum, whose parts do not wait for each other as those of a product do; sixteen parts fit in a word.
fn mixed(words: &[u64; POOL_WORDS], n: u16) -> u64
    ensures { result ≡ mix_from 0 0 (stmt_at words.now n).views }
{
    let c = pool::count(words, n);
    let mut h: u64 = 0;
    for p in 0..c {
        h += pool::nth(words, n, p) * weight(p);
    }
    h
}

// What the vote n is for.
fn what_of(words: &[u64; POOL_WORDS], n: u16) -> u64
    requires { is_vote (stmt_at words.now n) ≡ true }
    ensures { result ≡ what_of (stmt_at words.now n) }
{
    let k = pool::kind(words, n);
    if k == Kind::AgreeView as u64 {
        pool::view(words, n)
    } else if k == Kind::AgreeHistory as u64 {
        mixed(words, n)
    } else {
        pool::payload(words, n)
    }
}

// The tag of the vote n.
fn tag_of(words: &[u64; POOL_WORDS], n: u16) -> u64
    ensures { (result ≡ tag_by (stmt_at words.now n)) × (result < 65536) }
{
    let k = pool::kind(words, n);
    if k < Kind::Ack as u64 {
        return k;
    }
    k + pool::notice(words, n) * NOTICE
}

// The vote n.
pub fn vote_of(words: &[u64; POOL_WORDS], n: u16) -> Vote
    requires { is_vote (stmt_at words.now n) ≡ true }
    ensures { (result.number ≡ n) × Key words.now result × (result.tag < 65536) }
{
    Vote {
        number: n,
        at: pool::at(words, n),
        what: what_of(words, n),
        tag: tag_of(words, n),
    }
}

// Whether i and j, votes with the same words, name the same history where they name one.
#[tactic(auto, unfolding(crate::specs::Keys::same_names))]
pub fn same_names(words: &[u64; POOL_WORDS], i: u16, j: u16) -> bool
    ensures { result ≡ same_names (stmt_at words.now i) (stmt_at words.now j) }
{
    pool::kind(words, j) != Kind::AgreeHistory as u64 || pool::same_views(words, i, j)
}

// The slot of a vote.
pub fn slot_of(v: Vote) -> usize
    ensures { (result ≡ slot_by v.at v.what v.tag) × (result < 256) }
{
    let x = fold(v.at) + v.tag % QUARTER;
    let y = fold(v.what);
    tables::slot_from(x * AT_FACTOR + y * WHAT_FACTOR)
}
