// Which reports count, and whether each view that needs them has a quorum.
ghost use Rattle.std.specs.Prelude.{◌≡◌, true, ◌≤◌, ◌<◌};
ghost use Rattle.protocol.specs.Sets.{every};
ghost use Rattle.protocol.specs.Lists.{any, filter};
ghost use Rattle.protocol.specs.View.{same_view, member};
ghost use Rattle.protocol.specs.History.{holds};
ghost use Rattle.protocol.specs.Statement.{group_of, is_kind};
ghost use Rattle.protocol.specs.Evidence.{is_counted_on};
ghost use Rattle.protocol.specs.Count.{count_quorum};
ghost use Rattle.protocol.specs.Signers.{signers};
ghost use Rattle.protocol.proofs.Bits.{Fits};
ghost use Rattle.views.specs.View.{view_of, views_of};
ghost use Rattle.views.specs.Tally.{count_is};
ghost use Rattle.pool.specs.Pool.{told_at, stmt_at, record_in};
ghost use Rattle.evidence.specs.Evidence.{ring_is, Settled, reported_all, reports_count};
ghost use Rattle.evidence.specs.Notices.{senders_of};
ghost use Rattle.evidence.specs.Reports.{binding_holds, kept_holds, told_holds, counts_by, counts_on, has_reports, counts_among, TellsNothing, Usable, judge_of};

use crate::{Evidence, Ring, binding, prepares, remaining};
use pool::{CAPACITY, POOL_WORDS, RECORD};
use statements::{Kind, NOTICES};
use tables::{KEYS, ROWS};
use views::{Count, View};

// The numbers that a report is judged by: wished; how many of the list of candidates count; the notices that have a certificate; how many
// notices there are; and how many rows of what was prepared are known.
#[derive(Clone, Copy)]
pub struct Judge {
    pub wished: u64,
    pub count: usize,
    pub certified: u64,
    pub notices: usize,
    pub known: usize,
}

// A judge with the lists that are lent to it: the candidates, the payloads of the certificates, and the table of what the senders prepared.
#[derive(Clone, Copy)]
pub struct Basis<'a> {
    pub judge: Judge,
    pub candidates: &'a [u64; View::LIMIT],
    pub certs: &'a [u64; NOTICES],
    pub keys: &'a [u64; KEYS],
    pub rows: &'a [u16; ROWS],
}

// Whether k is a member of v.
fn is_member(v: u64, k: u64) -> bool
    requires { (k < 256) × Fits 16 (view_of v) }
    ensures { result ≡ member (view_of v) k }
{
    View::of_word(v).has_member(k as u8)
}

// Whether v is one of the first n views.
fn is_in(list: &[u64; View::LIMIT], n: usize, v: u64) -> bool
    requires { n ≤ 16 }
    ensures { result ≡ any (same_view (view_of v)) (views_of list.now n) }
{
    list[..n].contains(&v)
}

// The same of a view that may well stand at place p: the histories of honest reports list the candidates in their order.
fn is_in_near(list: &[u64; View::LIMIT], n: usize, p: usize, v: u64) -> bool
    requires { n ≤ 16 }
    ensures { result ≡ any (same_view (view_of v)) (views_of list.now n) }
{
    (p < n && list[p] == v) || is_in(list, n, v)
}

// Whether all views of statement s are among the first n.
fn all_in(words: &[u64; POOL_WORDS], s: u16, list: &[u64; View::LIMIT], n: usize) -> bool
    requires { n ≤ 16 }
    ensures { result ≡ holds (views_of list.now n) (stmt_at words.now s).views }
{
    for p in 0..pool::count(words, s) {
        if !is_in_near(list, n, p, pool::nth(words, s, p)) {
            return false;
        }
    }
    true
}

// Whether statement s tells nothing of any notice that would have to hold.
fn tells_nothing(words: &[u64; POOL_WORDS], s: u16) -> bool
    ensures { result ≡ true → TellsNothing words.now s }
{
    pool::bound(words, s) == 0 && pool::barred(words, s) == 0 && pool::stored(words, s) == 0
}

// Lists the reports of the record, which are few, so that what asks for reports reads no others.
// Every number is written, and stays only if it is that of a report, so that the loop has no branch.
fn reports_in(words: &[u64; POOL_WORDS], ids: &[u16; RECORD], listed: &mut [u16; RECORD])
    ensures { record_in words.now listed.new ≡ filter (is_kind 5) (record_in words.now ids.now) }
{
    let mut count = 0;
    for s in &ids[..pool::record_length(ids)] {
        listed[count] = *s;
        count += usize::from(pool::kind(words, *s) == Kind::Report as u64);
    }
    listed[CAPACITY] = count as u16;
}

impl Basis<'_> {
    // Whether the binding that report s tells of notice j is explained by what its sender prepared.
    fn binding_holds(&self, words: &[u64; POOL_WORDS], s: u16, j: usize) -> bool
        requires { (j < 64) × Usable self.now.judge self.now.keys.now self.now.rows.now }
        ensures { result ≡ binding_holds self.now.judge self.now.keys.now j (told_at words.now s j) }
    {
        let known = self.judge.known;
        if statements::has(pool::barred(words, s), j) {
            prepares::is_twofold(self.keys, self.rows, known, j)
        } else if statements::has(pool::bound(words, s), j) {
            prepares::is_listed(
                self.keys,
                self.rows,
                known,
                j,
                pool::told_payload(words, s, j),
            )
        } else {
            true
        }
    }

    // Whether the payload that report s tells is kept of notice j, if one is, is that of its certificate.
    fn kept_holds(&self, words: &[u64; POOL_WORDS], s: u16, j: usize) -> bool
        requires { j < 64 }
        ensures { result ≡ kept_holds self.now.judge self.now.certs.now j (told_at words.now s j) }
    {
        !statements::has(pool::stored(words, s), j)
            || (statements::has(self.judge.certified, j)
                && pool::told_kept(words, s, j) == self.certs[j])
    }

    // Whether what report s tells of notice j holds.
    #[tactic(auto, unfolding(crate::specs::Reports::told_holds))]
    fn told_holds(&self, words: &[u64; POOL_WORDS], s: u16, j: usize) -> bool
        requires { (j < 64) × Usable self.now.judge self.now.keys.now self.now.rows.now }
        ensures { result ≡ told_holds self.now.judge self.now.certs.now self.now.keys.now j (told_at words.now s j) }
    {
        self.binding_holds(words, s, j) && self.kept_holds(words, s, j)
    }

    // Whether all that statement s tells of the notices of the ring holds. Most reports tell of no binding and of nothing stored.
    fn all_hold(&self, words: &[u64; POOL_WORDS], s: u16) -> bool
        requires { Usable self.now.judge self.now.keys.now self.now.rows.now }
        ensures { result ≡ every self.now.judge.notices (λ i. told_holds self.now.judge self.now.certs.now self.now.keys.now i (group_of (stmt_at words.now s) i)) }
    {
        if tells_nothing(words, s) {
            return true;
        }
        for j in 0..binding::told_count(words, s).min(self.judge.notices) {
            if !self.told_holds(words, s, j) {
                return false;
            }
        }
        true
    }

    // Whether report s counts.
    #[tactic(auto, unfolding(crate::specs::Reports::counts_by))]
    fn counts(&self, words: &[u64; POOL_WORDS], s: u16) -> bool
        requires { Usable self.now.judge self.now.keys.now self.now.rows.now }
        ensures { result ≡ counts_by self.now.judge self.now.candidates.now self.now.certs.now self.now.keys.now (stmt_at words.now s) }
    {
        is_member(pool::at(words, s), pool::origin(words, s))
            && views::within_view(pool::view(words, s), self.judge.wished)
            && all_in(words, s, self.candidates, self.judge.count)
            && self.all_hold(words, s)
    }

    // Whether statement s is a report on u that counts.
    fn counts_on(&self, words: &[u64; POOL_WORDS], u: u64, s: u16) -> bool
        requires { Usable self.now.judge self.now.keys.now self.now.rows.now }
        ensures { result ≡ counts_on self.now.judge self.now.candidates.now self.now.certs.now self.now.keys.now (view_of u) (stmt_at words.now s) }
    {
        pool::at(words, s) == u
            && pool::kind(words, s) == Kind::Report as u64
            && self.counts(words, s)
    }

    // Whether statement s is a report that counts, on one of the first n views of a list.
    #[tactic(auto, unfolding(crate::specs::Reports::counts_among, protocol::specs::Statement::is_kind))]
    pub fn counts_among(
        &self,
        words: &[u64; POOL_WORDS],
        needed: &[u64; View::LIMIT],
        n: usize,
        s: u16,
    ) -> bool
        requires { (n ≤ 16) × Usable self.now.judge self.now.keys.now self.now.rows.now }
        ensures { result ≡ counts_among self.now.judge self.now.candidates.now self.now.certs.now self.now.keys.now (views_of needed.now n) (stmt_at words.now s) }
    {
        pool::kind(words, s) == Kind::Report as u64
            && is_in(needed, n, pool::at(words, s))
            && self.counts(words, s)
    }

    // Whether u has a quorum of reports that count, and how many statements were read. It ends with the signer who completes the quorum.
    fn count_on(&self, words: &[u64; POOL_WORDS], ids: &[u16; RECORD], u: u64) -> Count
        requires { Usable self.now.judge self.now.keys.now self.now.rows.now }
        ensures { count_is result ≡ count_quorum 16 (view_of u) (counts_on self.now.judge self.now.candidates.now self.now.certs.now self.now.keys.now (view_of u)) (record_in words.now ids.now) }
    {
        let end = pool::record_length(ids);
        let mut a = views::unsigned(u, 0, 0);
        for (i, s) in ids[..end].iter().enumerate() {
            if !self.counts_on(words, u, *s) {
                continue;
            }
            a = views::sign(a, pool::origin(words, *s), i);
            if views::is_complete(a) {
                return Count {
                    reached: true,
                    read: i + 1,
                };
            }
        }
        Count {
            reached: false,
            read: end,
        }
    }

    // Whether u has a quorum of listed reports that count.
    fn is_reported_on(&self, words: &[u64; POOL_WORDS], listed: &[u16; RECORD], u: u64) -> bool
        requires { Usable self.now.judge self.now.keys.now self.now.rows.now }
        ensures { result ≡ has_reports self.now.judge self.now.candidates.now self.now.certs.now self.now.keys.now (record_in words.now listed.now) (view_of u) }
    {
        self.count_on(words, listed, u).reached
    }

    // The members of u who signed reports on it that count, all of them.
    fn signers_on(&self, words: &[u64; POOL_WORDS], ids: &[u16; RECORD], u: u64) -> u32
        requires { Usable self.now.judge self.now.keys.now self.now.rows.now }
        ensures { result ≡ signers 16 (record_in words.now ids.now) (view_of u) (counts_on self.now.judge self.now.candidates.now self.now.certs.now self.now.keys.now (view_of u)) }
    {
        let mut seen = 0;
        for s in &ids[..pool::record_length(ids)] {
            if self.counts_on(words, u, *s) {
                seen = views::note(seen, true, pool::origin(words, *s));
            }
        }
        views::members_among(u, seen)
    }
}

// What reports are judged by in a ring, with the evidence e and the rows of what was prepared that are known.
pub fn judge_by(ring: Ring, e: Evidence, known: usize) -> Judge
    ensures { result ≡ judge_of ring e known }
{
    Judge {
        wished: e.wished,
        count: e.count,
        certified: e.certified,
        notices: ring.notices.min(NOTICES),
        known,
    }
}

// Whether each view of the greatest history that needs reports has a quorum of those that count.
pub fn reported(
    words: &[u64; POOL_WORDS],
    ids: &[u16; RECORD],
    ring: Ring,
    senders: &[u8; NOTICES],
    e: Evidence,
    candidates: &[u64; View::LIMIT],
    greatest: &[u64; View::LIMIT],
    certs: &[u64; NOTICES],
) -> bool
    requires { Settled (ring_is ring) (senders_of senders.now ring.notices) (record_in words.now ids.now) candidates.now greatest.now certs.now e }
    ensures { result ≡ reported_all (ring_is ring) (senders_of senders.now ring.notices) (record_in words.now ids.now) }
{
    let mut keys = [0u64; KEYS];
    let mut rows = [0u16; ROWS];
    let known = prepares::list(words, ids, ring.notices, senders, &mut keys, &mut rows);
    let basis = Basis {
        judge: judge_by(ring, e, known),
        candidates,
        certs,
        keys: &keys,
        rows: &rows,
    };
    let mut listed = [0u16; RECORD];
    reports_in(words, ids, &mut listed);
    let mut needed = [0u64; View::LIMIT];
    let n = remaining::needed(greatest, e.length, e.skipped, ring.init, &mut needed);
    for u in &needed[..n] {
        if !basis.is_reported_on(words, &listed, *u) {
            return false;
        }
    }
    true
}

// Whether u has a quorum of reports that count, and how many statements of the record were read.
pub fn count_reports(
    words: &[u64; POOL_WORDS],
    ids: &[u16; RECORD],
    ring: Ring,
    senders: &[u8; NOTICES],
    e: Evidence,
    candidates: &[u64; View::LIMIT],
    greatest: &[u64; View::LIMIT],
    certs: &[u64; NOTICES],
    u: u64,
) -> Count
    requires { Settled (ring_is ring) (senders_of senders.now ring.notices) (record_in words.now ids.now) candidates.now greatest.now certs.now e }
    ensures { count_is result ≡ reports_count (ring_is ring) (senders_of senders.now ring.notices) (record_in words.now ids.now) (view_of u) }
{
    let mut keys = [0u64; KEYS];
    let mut rows = [0u16; ROWS];
    let known = prepares::list(words, ids, ring.notices, senders, &mut keys, &mut rows);
    let basis = Basis {
        judge: judge_by(ring, e, known),
        candidates,
        certs,
        keys: &keys,
        rows: &rows,
    };
    basis.count_on(words, ids, u)
}

// The members of u of whom the record has a report on it that counts.
pub fn reporters(
    words: &[u64; POOL_WORDS],
    ids: &[u16; RECORD],
    ring: Ring,
    senders: &[u8; NOTICES],
    e: Evidence,
    candidates: &[u64; View::LIMIT],
    greatest: &[u64; View::LIMIT],
    certs: &[u64; NOTICES],
    u: u64,
) -> u32
    requires { Settled (ring_is ring) (senders_of senders.now ring.notices) (record_in words.now ids.now) candidates.now greatest.now certs.now e }
    ensures { result ≡ signers 16 (record_in words.now ids.now) (view_of u) (is_counted_on (ring_is ring) (senders_of senders.now ring.notices) (record_in words.now ids.now) (view_of u)) }
{
    let mut keys = [0u64; KEYS];
    let mut rows = [0u16; ROWS];
    let known = prepares::list(words, ids, ring.notices, senders, &mut keys, &mut rows);
    let basis = Basis {
        judge: judge_by(ring, e, known),
        candidates,
        certs,
        keys: &keys,
        rows: &rows,
    };
    basis.signers_on(words, ids, u)
}
