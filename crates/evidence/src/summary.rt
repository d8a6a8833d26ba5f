// All the evidence of a record, from its votes.
ghost use Rattle.std.specs.Prelude.{◌≡◌, false, ◌||◌, List, ℕ, ◌≤◌, length, set};
ghost use Rattle.protocol.specs.Lists.{any};
ghost use Rattle.protocol.specs.Statement.{Stmt};
ghost use Rattle.protocol.specs.Evidence.{wished};
ghost use Rattle.views.specs.View.{view_of, ring_of_word};
ghost use Rattle.pool.specs.Pool.{record_in};
ghost use Rattle.votes.specs.Votes.{is_vote};
ghost use Rattle.ranking.specs.Ranking.{CandidatesOf, HistoriesOf};
ghost use Rattle.evidence.specs.Shown.{BackedIn, CertificatesOf, StoredOf};
ghost use Rattle.evidence.specs.Evidence.{ring_is, EvidenceOf};
ghost use Rattle.evidence.specs.Notices.{senders_of};

use crate::certificates::Certified;
use crate::{Evidence, Ring, certificates};
use pool::{POOL_WORDS, RECORD};
use ranking::{Ranked, Summit};
use sealing::{MEMO, Verdict};
use statements::NOTICES;
use tables::{KEYS, ROWS};
use views::View;
use votes::GROUPS;

// The evidence, put together from its parts.
fn tie(wish: u64, r: Ranked, h: Summit, c: Certified, stored: u64, backed: usize) -> Evidence
    requires { backed ≤ 512 }
    ensures { ((init : ℕ) (senders : List ℕ) (X : List Stmt) (C G P : List ℕ) → length senders ≤ 64 → view_of wish ≡ wished (ring_of_word init) X → CandidatesOf init X C r → HistoriesOf init X G h → CertificatesOf init senders X P c → StoredOf init X c.some P stored → EvidenceOf (ring_of_word init) senders X C G P result) × (result.backed ≡ backed) }
{
    Evidence {
        conflict: r.conflict || h.conflict || c.conflict,
        many: r.many,
        backed: backed as u16,
        wished: wish,
        count: r.count,
        length: h.length,
        skipped: h.skipped,
        certified: c.some,
        stored,
    }
}

// The evidence of a record, from its votes. The tables serve the gathering first and the search for what was prepared last, since each array that is declared is
// cleared, which takes time. Those that are lent may hold anything.
fn of_votes(
    words: &[u64; POOL_WORDS],
    ids: &[u16; RECORD],
    ring: Ring,
    senders: &[u8; NOTICES],
    keys: &mut [u64; KEYS],
    groups: &mut [u64; GROUPS],
    candidates: &mut [u64; View::LIMIT],
    greatest: &mut [u64; View::LIMIT],
    certs: &mut [u64; NOTICES],
) -> Evidence
    ensures { EvidenceOf (ring_is ring) (senders_of senders.now ring.notices) (record_in words.now ids.now) candidates.new greatest.new certs.new result × BackedIn words.now ids.now ring.init groups.new result.backed }
{
    let init = ring.init;
    let mut rows = [0u16; ROWS];
    let found = votes::gather(words, ids, init, keys, &mut rows, groups);
    let counts = votes::tabulate(words, ids, init, found, groups, keys, &mut rows);
    let mut memo = [Verdict::Unknown; MEMO];
    sealing::verdicts(words, ids, init, keys, &rows, &mut memo, counts);
    let r = ranking::rank(keys, &memo, counts.choices, init, candidates);
    let h = ranking::greatest_history(words, &rows, &memo, counts.agreements, init, greatest);
    certificates::end(groups, found.groups);
    let n = certificates::keep_backed(words, ids, init, keys, &rows, &memo, groups);
    let c = certificates::certificates(
        words,
        ids,
        init,
        ring.notices,
        senders,
        groups,
        n,
        keys,
        &mut rows,
        certs,
    );
    let stored = certificates::stored(words, ids, init, groups, n, c.some, certs);
    tie(found.wished, r, h, c, stored, n)
}

// The evidence of a record without votes: the initial view is its only candidate and alone its greatest history, and nothing has a certificate.
fn unvoted(
    wish: u64,
    init: u64,
    candidates: &mut [u64; View::LIMIT],
    greatest: &mut [u64; View::LIMIT],
) -> Evidence
    ensures { ((senders : List ℕ) (X : List Stmt) (P : List ℕ) → length senders ≤ 64 → any is_vote X ≡ false → view_of wish ≡ wished (ring_of_word init) X → EvidenceOf (ring_of_word init) senders X candidates.new greatest.new P result) × (result.backed ≡ 0) }
{
    candidates[0] = init;
    greatest[0] = init;
    Evidence {
        conflict: false,
        many: false,
        backed: 0,
        wished: wish,
        count: 1,
        length: 1,
        skipped: 0,
        certified: 0,
        stored: 0,
    }
}

// The evidence of a record, with its candidates, its greatest history and the payloads of its certificates in the three lists. Where there are no votes, none of the
// memory is cleared that they are gathered in.
pub fn of_record(
    words: &[u64; POOL_WORDS],
    ids: &[u16; RECORD],
    ring: Ring,
    senders: &[u8; NOTICES],
    keys: &mut [u64; KEYS],
    groups: &mut [u64; GROUPS],
    candidates: &mut [u64; View::LIMIT],
    greatest: &mut [u64; View::LIMIT],
    certs: &mut [u64; NOTICES],
) -> Evidence
    ensures { EvidenceOf (ring_is ring) (senders_of senders.now ring.notices) (record_in words.now ids.now) candidates.new greatest.new certs.new result × BackedIn words.now ids.now ring.init groups.new result.backed }
{
    if votes::has_votes(words, ids) {
        return of_votes(
            words, ids, ring, senders, keys, groups, candidates, greatest, certs,
        );
    }
    unvoted(
        votes::wished_by(words, ids, ring.init),
        ring.init,
        candidates,
        greatest,
    )
}
