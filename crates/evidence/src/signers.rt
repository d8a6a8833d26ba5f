// Who signed: the members behind a certificate and behind a store quorum, each at the least sealed top that has one.
ghost use Rattle.std.specs.Prelude.{◌≡◌, ◌≤◌, ◌<◌};
ghost use Rattle.protocol.specs.Statement.{acks};
ghost use Rattle.protocol.specs.Evidence.{signed_by_quorum};
ghost use Rattle.protocol.specs.Signers as protocol;
ghost use Rattle.views.specs.View.{view_of, ring_of_word};
ghost use Rattle.statements.specs.Kind.{kind_number};
ghost use Rattle.pool.specs.Pool.{record_in};
ghost use Rattle.evidence.specs.Evidence.{ring_is};
ghost use Rattle.evidence.specs.Notices.{senders_of};
ghost use Rattle.evidence.specs.Shown.{BackedIn};
ghost use Rattle.evidence.specs.Casts.{Late, cast_at, top_is};

use crate::{Ring, certificates, prepares};
use pool::{POOL_WORDS, RECORD};
use statements::{Kind, NOTICES};
use views::View;
use votes::{GROUPS, Question};

// The top that is written first: the one that was found, or that of the word w.
fn lesser(found: Option<u64>, w: u64) -> u64
    ensures { view_of result ≡ protocol.lesser (view_of w) (top_is found) }
{
    match found {
        Some(u) if views::written_before(u, w) => u,
        _ => w,
    }
}

// The least sealed top, as written, of which a quorum signed votes of this kind, acks or stores, of notice j for m. The n groups have all that quorums of sealed tops acked and stored.
fn least_top(
    words: &[u64; POOL_WORDS],
    ids: &[u16; RECORD],
    init: u64,
    groups: &[u64; GROUPS],
    n: usize,
    kind: Kind,
    j: u8,
    m: u64,
) -> Option<u64>
    requires { BackedIn words.now ids.now init groups.now n × Late (kind_number kind) }
    ensures { top_is result ≡ protocol.least_top (ring_of_word init) (record_in words.now ids.now) (λ t. signed_by_quorum 16 (record_in words.now ids.now) t (cast_at (kind_number kind) t j m)) }
{
    let mut least = None;
    for x in &groups[..n] {
        let s = ids[views::place_of(*x)];
        if certificates::casts(words, s, kind, usize::from(j), m) {
            least = Some(lesser(least, pool::at(words, s)));
        }
    }
    least
}

// Who signed such votes at that top: nobody where there is none.
fn signers(
    words: &[u64; POOL_WORDS],
    ids: &[u16; RECORD],
    init: u64,
    groups: &[u64; GROUPS],
    n: usize,
    kind: Kind,
    j: u8,
    m: u64,
) -> u32
    requires { BackedIn words.now ids.now init groups.now n × Late (kind_number kind) }
    ensures { result ≡ protocol.set_behind (ring_of_word init) (record_in words.now ids.now) (λ t. cast_at (kind_number kind) t j m) }
{
    let Some(at) = least_top(words, ids, init, groups, n, kind, j, m) else {
        return 0;
    };
    let q = Question {
        kind: kind as u8,
        notice: j,
        at,
        what: m,
        length: 0,
    };
    votes::signers(words, ids, q, &[0u64; View::LIMIT])
}

// Who acked m of notice j, at the least sealed top with a quorum of such acks.
pub fn acked_by(
    words: &[u64; POOL_WORDS],
    ids: &[u16; RECORD],
    init: u64,
    groups: &[u64; GROUPS],
    n: usize,
    j: u8,
    m: u64,
) -> u32
    requires { BackedIn words.now ids.now init groups.now n }
    ensures { result ≡ protocol.set_behind (ring_of_word init) (record_in words.now ids.now) (λ t. acks t j m) }
{
    signers(words, ids, init, groups, n, Kind::Ack, j, m)
}

// Who stored it, at the least sealed top with a quorum of such stores.
pub fn stored_by(
    words: &[u64; POOL_WORDS],
    ids: &[u16; RECORD],
    init: u64,
    groups: &[u64; GROUPS],
    n: usize,
    j: u8,
    m: u64,
) -> u32
    requires { BackedIn words.now ids.now init groups.now n }
    ensures { result ≡ protocol.store_set (ring_of_word init) (record_in words.now ids.now) j m }
{
    signers(words, ids, init, groups, n, Kind::Store, j, m)
}

// Who acked it, if that makes a certificate: the sender of the notice has to have prepared m.
pub fn ack_set(
    words: &[u64; POOL_WORDS],
    ids: &[u16; RECORD],
    ring: Ring,
    senders: &[u8; NOTICES],
    groups: &[u64; GROUPS],
    n: usize,
    j: u8,
    m: u64,
) -> u32
    requires { BackedIn words.now ids.now ring.init groups.now n }
    ensures { result ≡ protocol.ack_set (ring_is ring) (senders_of senders.now ring.notices) (record_in words.now ids.now) j m }
{
    let notice = usize::from(j);
    if notice >= ring.notices.min(NOTICES)
        || !prepares::is_prepared(words, ids, ring.notices, senders, notice, m)
    {
        return 0;
    }
    acked_by(words, ids, ring.init, groups, n, j, m)
}
