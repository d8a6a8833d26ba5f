// The certificates, and whether their payloads are stored: what quorums of sealed tops acked and stored.
ghost use Rattle.std.specs.Prelude.{◌≡◌, ◌&&◌, List, ℕ, ◌≤◌, ◌<◌, min, eqb};
ghost use Rattle.protocol.specs.Count.{complete_after};
ghost use Rattle.views.specs.View.{ring_of_word};
ghost use Rattle.views.specs.Tally.{place_in, own_in};
ghost use Rattle.statements.specs.Kind.{kind_number};
ghost use Rattle.pool.specs.Pool.{stmt_at, record_len, record_in};
ghost use Rattle.votes.specs.Votes.{entry, tag_by, GroupCounts, GroupsIn};
ghost use Rattle.sealing.specs.Memos.{VerdictsHeld};
ghost use Rattle.evidence.specs.Notices.{senders_of};
ghost use Rattle.evidence.specs.Shown.{is_backed, Ended, BackedIn, AckedOf, Linked, PreparedList, certifies_by, stores_one, OneCertificate, CertificatesOf, StoredOf};
ghost use Rattle.evidence.specs.Casts.{cast_for};

use crate::{notices, prepares};
use pool::{POOL_WORDS, RECORD};
use sealing::{MEMO, Verdict};
use statements::{Kind, NOTICES};
use tables::{KEYS, ROWS};
use votes::GROUPS;

// The kind of a group's votes is the lowest byte of its tag.
const KIND: u64 = 256;

// The notices that have a certificate, as a set, and whether one has certificates for two payloads. No Result: the set is told beside a conflict too, and a promise speaks of it.
#[derive(Clone, Copy)]
pub struct Certified {
    pub conflict: bool,
    pub some: u64,
}

// What an ack says: a payload of a notice.
#[derive(Clone, Copy, PartialEq)]
struct Said {
    notice: usize,
    payload: u64,
}

// What quorums of sealed tops acked: nothing, one payload of one notice, or more.
#[derive(Clone, Copy)]
enum Acked {
    Nothing,
    One(Said),
    Many,
}

// Puts a word without a tag after the n groups, if there is room: it ends them, so that their number need not travel with them.
pub fn end(groups: &mut [u64; GROUPS], n: usize)
    ensures { (W ids : List ℕ) → GroupsIn W ids groups.old n → Ended W ids groups.new }
{
    if n < GROUPS {
        groups[n] = 0;
    }
}

// Whether the group x is of acks or of stores by a quorum of a sealed top.
fn is_backed(
    words: &[u64; POOL_WORDS],
    ids: &[u16; RECORD],
    init: u64,
    keys: &[u64; KEYS],
    rows: &[u16; ROWS],
    memo: &[Verdict; MEMO],
    x: u64,
) -> bool
    requires { VerdictsHeld words.now (record_in words.now ids.now) init keys.now rows.now memo.now × (place_in x < record_len ids.now) × (own_in x ≡ tag_by (entry words.now ids.now (place_in x))) × GroupCounts x (entry words.now ids.now (place_in x)) (record_in words.now ids.now) }
    ensures { result ≡ is_backed init (record_in words.now ids.now) (entry words.now ids.now (place_in x)) }
{
    let k = views::own_of(x) % KIND;
    if k != Kind::Ack as u64 && k != Kind::Store as u64 {
        return false;
    }
    if !views::is_complete(x) {
        return false;
    }
    let t = pool::at(words, ids[views::place_of(x)]);
    sealing::is_sealed_top(words, ids, init, keys, rows, memo, t)
}

// Of the groups, those of acks and of stores by a quorum of a sealed top go to the front. Returns how many there are. The groups are written while they are read, so
// the loop goes by their numbers.
pub fn keep_backed(
    words: &[u64; POOL_WORDS],
    ids: &[u16; RECORD],
    init: u64,
    keys: &[u64; KEYS],
    rows: &[u16; ROWS],
    memo: &[Verdict; MEMO],
    groups: &mut [u64; GROUPS],
) -> usize
    requires { VerdictsHeld words.now (record_in words.now ids.now) init keys.now rows.now memo.now × Ended words.now ids.now groups.old }
    ensures { BackedIn words.now ids.now init groups.new result }
{
    let mut n = 0;
    for g in 0..GROUPS {
        let x = groups[g];
        if views::own_of(x) == 0 {
            return n;
        }
        if !is_backed(words, ids, init, keys, rows, memo, x) {
            continue;
        }
        groups[n] = x;
        n += 1;
    }
    n
}

// Whether statement s is an ack of one of the known rows of what was prepared.
fn is_certifying(
    words: &[u64; POOL_WORDS],
    count: usize,
    keys: &[u64; KEYS],
    rows: &[u16; ROWS],
    known: usize,
    s: u16,
) -> bool
    requires { Linked keys.now rows.now known }
    ensures { result ≡ certifies_by (min count 64) keys.now known (stmt_at words.now s) }
{
    let j = notices::notice_of(words, s);
    pool::kind(words, s) == Kind::Ack as u64
        && j < count.min(NOTICES)
        && prepares::is_listed(keys, rows, known, j, pool::payload(words, s))
}

// The certificates, from the list of what the senders prepared.
fn certify(
    words: &[u64; POOL_WORDS],
    ids: &[u16; RECORD],
    init: u64,
    count: usize,
    senders: &[u8; NOTICES],
    groups: &[u64; GROUPS],
    n: usize,
    keys: &[u64; KEYS],
    rows: &[u16; ROWS],
    known: usize,
    certs: &mut [u64; NOTICES],
) -> Certified
    requires { BackedIn words.now ids.now init groups.now n × PreparedList (senders_of senders.now count) (record_in words.now ids.now) keys.now rows.now known }
    ensures { CertificatesOf init (senders_of senders.now count) (record_in words.now ids.now) certs.new result }
{
    let mut some = 0u64;
    for x in &groups[..n] {
        let s = ids[views::place_of(*x)];
        if !is_certifying(words, count, keys, rows, known, s) {
            continue;
        }
        let j = notices::notice_of(words, s);
        let m = pool::payload(words, s);
        if !statements::has(some, j) {
            some = statements::with_notice(some, j);
            certs[j] = m;
        } else if m != certs[j] {
            return Certified {
                conflict: true,
                some,
            };
        }
    }
    Certified {
        conflict: false,
        some,
    }
}

// What quorums of sealed tops acked.
fn only_acked(
    words: &[u64; POOL_WORDS],
    ids: &[u16; RECORD],
    init: u64,
    groups: &[u64; GROUPS],
    n: usize,
) -> Acked
    requires { BackedIn words.now ids.now init groups.now n }
    ensures { AckedOf words.now ids.now groups.now n result }
{
    let mut one: Option<Said> = None;
    for x in &groups[..n] {
        let s = ids[views::place_of(*x)];
        if pool::kind(words, s) != Kind::Ack as u64 {
            continue;
        }
        let said = Said {
            notice: notices::notice_of(words, s),
            payload: pool::payload(words, s),
        };
        match one {
            None => one = Some(said),
            Some(other) if other == said => {}
            Some(_) => return Acked::Many,
        }
    }
    match one {
        None => Acked::Nothing,
        Some(said) => Acked::One(said),
    }
}

// The certificate of notice j, if its sender prepared m, which is all that quorums acked.
fn certify_one(
    words: &[u64; POOL_WORDS],
    ids: &[u16; RECORD],
    count: usize,
    senders: &[u8; NOTICES],
    j: usize,
    m: u64,
    certs: &mut [u64; NOTICES],
) -> u64
    ensures { OneCertificate (senders_of senders.now count) (record_in words.now ids.now) j m certs.new result }
{
    if j >= count.min(NOTICES) || !prepares::is_prepared(words, ids, count, senders, j, m) {
        return 0;
    }
    certs[j] = m;
    statements::with_notice(0, j)
}

// The certificates of a record, of which `groups` has the acks and stores by a quorum of a sealed top. Most often one payload of one notice is acked, and one scan of
// the record asks whether it was prepared; otherwise the tables, which are free, hold what was prepared from here on.
pub fn certificates(
    words: &[u64; POOL_WORDS],
    ids: &[u16; RECORD],
    init: u64,
    count: usize,
    senders: &[u8; NOTICES],
    groups: &[u64; GROUPS],
    n: usize,
    keys: &mut [u64; KEYS],
    rows: &mut [u16; ROWS],
    certs: &mut [u64; NOTICES],
) -> Certified
    requires { BackedIn words.now ids.now init groups.now n }
    ensures { CertificatesOf init (senders_of senders.now count) (record_in words.now ids.now) certs.new result }
{
    let some = match only_acked(words, ids, init, groups, n) {
        Acked::Nothing => 0,
        Acked::One(a) => certify_one(words, ids, count, senders, a.notice, a.payload, certs),
        Acked::Many => {
            let known = prepares::list(words, ids, count, senders, keys, rows);
            return certify(
                words, ids, init, count, senders, groups, n, keys, rows, known, certs,
            );
        }
    };
    Certified {
        conflict: false,
        some,
    }
}

// Whether statement s is a store of what has a certificate.
fn stores_one(words: &[u64; POOL_WORDS], s: u16, some: u64, certs: &[u64; NOTICES]) -> bool
    ensures { result ≡ stores_one some certs.now (stmt_at words.now s) }
{
    let j = notices::notice_of(words, s);
    pool::kind(words, s) == Kind::Store as u64
        && statements::has(some, j)
        && pool::payload(words, s) == certs[j]
}

// The certified notices of which quorums of sealed tops stored the payload.
pub fn stored(
    words: &[u64; POOL_WORDS],
    ids: &[u16; RECORD],
    init: u64,
    groups: &[u64; GROUPS],
    n: usize,
    some: u64,
    certs: &[u64; NOTICES],
) -> u64
    requires { BackedIn words.now ids.now init groups.now n }
    ensures { StoredOf init (record_in words.now ids.now) some certs.now result }
{
    let mut seen = 0u64;
    for x in &groups[..n] {
        let s = ids[views::place_of(*x)];
        if stores_one(words, s, some, certs) {
            seen = statements::with_notice(seen, notices::notice_of(words, s));
        }
    }
    seen
}

// Whether statement s is a vote of this kind, an ack or a store, of notice j for m.
pub fn casts(words: &[u64; POOL_WORDS], s: u16, kind: Kind, j: usize, m: u64) -> bool
    requires { kind_number kind ≡ 5 → ⊥ }
    ensures { result ≡ cast_for (kind_number kind) j m (stmt_at words.now s) }
{
    pool::kind(words, s) == kind as u64
        && notices::notice_of(words, s) == j
        && pool::payload(words, s) == m
}

// After how many statements the certificate for m of notice j was complete: of its acks by quorums of sealed tops, those that were complete first tell it.
pub fn complete_after(
    words: &[u64; POOL_WORDS],
    ids: &[u16; RECORD],
    init: u64,
    groups: &[u64; GROUPS],
    n: usize,
    j: usize,
    m: u64,
) -> usize
    requires { BackedIn words.now ids.now init groups.now n }
    ensures { (result ≡ complete_after (ring_of_word init) (record_in words.now ids.now) j m) × (result ≤ 512) }
{
    let mut least: Option<usize> = None;
    for x in &groups[..n] {
        let f = views::place_of(*x);
        if casts(words, ids[f], Kind::Ack, j, m) {
            least = Some(least.unwrap_or(f).min(f));
        }
    }
    match least {
        None => 0,
        Some(f) => f + 1,
    }
}
