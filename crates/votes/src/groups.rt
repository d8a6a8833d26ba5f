// The votes of a record in groups, found by the slots of their words.
ghost use Rattle.std.specs.Prelude.{◌≡◌, ℕ, ◌+◌, ◌<◌, length};
ghost use Rattle.protocol.specs.Lists.{any};
ghost use Rattle.pool.specs.Pool.{record_in};
ghost use Rattle.tables.specs.Index.{Empty};
ghost use Rattle.votes.specs.Votes.{is_vote, GatheredOf};
ghost use Rattle.votes.specs.Keys.{Key, has_words, Grouped, Place, Sofar};

use crate::keys::Vote;
use crate::{GROUPS, Gathered, keys, wish};
use pool::{POOL_WORDS, RECORD};
use tables::{KEYS, ROWS};

// Whether group g has the words of a vote.
#[tactic(auto, unfolding(crate::specs::Keys::has_words))]
fn has_words(keys: &[u64; KEYS], groups: &[u64; GROUPS], g: usize, v: Vote) -> bool
    requires { g < 512 }
    ensures { result ≡ has_words keys.now groups.now v g }
{
    tables::key(keys, 1, g) == v.what
        && tables::key(keys, 0, g) == v.at
        && views::own_of(groups[g]) == v.tag
}

// The group of a vote: of those with its words, the one with its history where it is for one. The search along a slot reads no statement, since most votes are
// found by their words alone, and it is fastest where it has little at hand.
fn find(
    words: &[u64; POOL_WORDS],
    ids: &[u16; RECORD],
    keys: &[u64; KEYS],
    rows: &[u16; ROWS],
    groups: &[u64; GROUPS],
    v: Vote,
) -> Option<usize>
    requires key { Key words.now v }
    requires groups { (n : ℕ) × Grouped words.now ids.now keys.now rows.now groups.now n }
    ensures { (n : ℕ) → Grouped words.now ids.now keys.now rows.now groups.now n → Place words.now ids.now groups.now n v.number result }
{
    let newest = tables::newest(rows, 0, keys::slot_of(v));
    let mut at = tables::find(rows, 0, newest, |g| has_words(keys, groups, g, v));
    while let Some(g) = at {
        let f = views::place_of(groups[g]);
        if keys::same_names(words, ids[f], v.number) {
            return Some(g);
        }
        let before = tables::older(rows, 0, g);
        at = tables::find(rows, 0, before, |g| has_words(keys, groups, g, v));
    }
    None
}

// Puts entry i into its group if it is a vote; a group that has a quorum takes no more. Returns how many groups there are then.
fn add(
    words: &[u64; POOL_WORDS],
    ids: &[u16; RECORD],
    i: usize,
    keys: &mut [u64; KEYS],
    rows: &mut [u16; ROWS],
    groups: &mut [u64; GROUPS],
    n: usize,
) -> usize
    requires { (i < 512) × Sofar words.now ids.now i keys.old rows.old groups.old n }
    ensures { Sofar words.now ids.now (i + 1) keys.new rows.new groups.new result }
{
    let s = ids[i];
    if !keys::is_vote(words, s) {
        return n;
    }
    let o = pool::origin(words, s);
    let v = keys::vote_of(words, s);
    if let Some(g) = find(words, ids, keys, rows, groups, v) {
        groups[g] = views::sign(groups[g], o, i);
        return n;
    }
    tables::set_key(keys, 0, n, v.at);
    tables::set_key(keys, 1, n, v.what);
    groups[n] = views::sign(views::unsigned(v.at, i, v.tag), o, i);
    tables::link(rows, 0, keys::slot_of(v), n);
    n + 1
}

// The votes of a record in groups, and the view that it wishes. The tables have no rows at first; of their memory, the first table and the keys serve the search for a group.
// What the other memory held before does not matter.
pub fn gather(
    words: &[u64; POOL_WORDS],
    ids: &[u16; RECORD],
    init: u64,
    keys: &mut [u64; KEYS],
    rows: &mut [u16; ROWS],
    groups: &mut [u64; GROUPS],
) -> Gathered
    requires { Empty rows.old 0 × Empty rows.old 1 }
    ensures { GatheredOf words.now ids.now init groups.new rows.new result }
{
    let end = pool::record_length(ids);
    let mut asked = 0u64;
    let mut n = 0usize;
    for i in 0..end {
        asked = wish::note_asked(words, ids[i], asked);
        n = add(words, ids, i, keys, rows, groups, n);
    }
    Gathered {
        groups: n,
        wished: wish::wished_view(init, asked),
    }
}

// Whether a record has votes to gather.
pub fn has_votes(words: &[u64; POOL_WORDS], ids: &[u16; RECORD]) -> bool
    ensures { result ≡ any is_vote (record_in words.now ids.now) }
{
    let end = pool::record_length(ids);
    ids[..end].iter().any(|s| keys::is_vote(words, *s))
}
