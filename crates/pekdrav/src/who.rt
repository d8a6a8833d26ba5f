// Who signed, in a record in lent memory: as sets, bit k for controller k. The votes of a record are gathered in `keys` and `groups`, which may hold anything.
ghost use Rattle.std.specs.Prelude.{◌≡◌};
ghost use Rattle.protocol.specs.Signers.{signers, ack_set};
ghost use Rattle.views.specs.View.{view_of, ring_of_word};
ghost use Rattle.pool.specs.Pool.{record_in};
ghost use Rattle.votes.specs.Question.{asks};
ghost use Rattle.evidence.specs.Notices.{senders_of};
ghost use Rattle.pekdrav.specs.Counted.{ReportersTold, stores_of};

use evidence::{GROUPS, KEYS, Ring};
use pool::{POOL_WORDS, RECORD};
use statements::NOTICES;
use views::View;
use votes::Question;

// All members of the view that signed the votes that `pekdrav_raw_record_count` counts.
#[unsafe(no_mangle)]
pub extern "C" fn pekdrav_raw_record_who(
    ids: &[u16; RECORD],
    words: &[u64; POOL_WORDS],
    kind: u8,
    notice: u8,
    at: u64,
    what: u64,
    history: &[u64; View::LIMIT],
    length: usize,
) -> u32
    ensures { result ≡ signers 16 (record_in words.now ids.now) (view_of at) (asks (record { kind = kind; notice = notice; at = at; what = what; length = length }) history.now) }
{
    let q = Question {
        kind,
        notice,
        at,
        what,
        length,
    };
    votes::signers(words, ids, q, history)
}

// The members of u of whom the record has a report on it that counts, in the ring of this initial view and of the notices of the first `count` senders. Answers 1; or 0, and `out` as it
// was, where the record shows a conflict or more than sixteen candidates: no report is judged then.
#[unsafe(no_mangle)]
pub extern "C" fn pekdrav_raw_record_who_reported(
    ids: &[u16; RECORD],
    words: &[u64; POOL_WORDS],
    init: u64,
    count: u8,
    senders: &[u8; NOTICES],
    keys: &mut [u64; KEYS],
    groups: &mut [u64; GROUPS],
    u: u64,
    out: &mut u32,
) -> u8
    ensures { ReportersTold (ring_of_word init) (senders_of senders.now count) (record_in words.now ids.now) (view_of u) out.old result out.new }
{
    let mut candidates = [0u64; View::LIMIT];
    let mut greatest = [0u64; View::LIMIT];
    let mut certs = [0u64; NOTICES];
    let ring = Ring {
        init,
        notices: count as usize,
    };
    let e = evidence::of_record(
        words,
        ids,
        ring,
        senders,
        keys,
        groups,
        &mut candidates,
        &mut greatest,
        &mut certs,
    );
    if e.conflict || e.many {
        return 0;
    }
    *out = evidence::reporters(
        words,
        ids,
        ring,
        senders,
        e,
        &candidates,
        &greatest,
        &certs,
        u,
    );
    1
}

// Who acked the payload of the notice, at the least sealed top, as written, that has a certificate for it; nobody where none has.
#[unsafe(no_mangle)]
pub extern "C" fn pekdrav_raw_record_ack_set(
    ids: &[u16; RECORD],
    words: &[u64; POOL_WORDS],
    init: u64,
    count: u8,
    senders: &[u8; NOTICES],
    keys: &mut [u64; KEYS],
    groups: &mut [u64; GROUPS],
    notice: u8,
    payload: u64,
) -> u32
    ensures { result ≡ ack_set (ring_of_word init) (senders_of senders.now count) (record_in words.now ids.now) notice payload }
{
    let mut candidates = [0u64; View::LIMIT];
    let mut greatest = [0u64; View::LIMIT];
    let mut certs = [0u64; NOTICES];
    let ring = Ring {
        init,
        notices: count as usize,
    };
    let e = evidence::of_record(
        words,
        ids,
        ring,
        senders,
        keys,
        groups,
        &mut candidates,
        &mut greatest,
        &mut certs,
    );
    evidence::ack_set(
        words,
        ids,
        ring,
        senders,
        groups,
        e.backed as usize,
        notice,
        payload,
    )
}

// Who stored it, at the least sealed top, as written, of which a quorum did; nobody where none did, or where the ring lacks the notice.
#[unsafe(no_mangle)]
pub extern "C" fn pekdrav_raw_record_store_set(
    ids: &[u16; RECORD],
    words: &[u64; POOL_WORDS],
    init: u64,
    count: u8,
    senders: &[u8; NOTICES],
    keys: &mut [u64; KEYS],
    groups: &mut [u64; GROUPS],
    notice: u8,
    payload: u64,
) -> u32
    ensures { result ≡ stores_of (ring_of_word init) (senders_of senders.now count) (record_in words.now ids.now) notice payload }
{
    if notice as usize >= usize::from(count).min(NOTICES) {
        return 0;
    }
    let mut candidates = [0u64; View::LIMIT];
    let mut greatest = [0u64; View::LIMIT];
    let mut certs = [0u64; NOTICES];
    let ring = Ring {
        init,
        notices: count as usize,
    };
    let e = evidence::of_record(
        words,
        ids,
        ring,
        senders,
        keys,
        groups,
        &mut candidates,
        &mut greatest,
        &mut certs,
    );
    evidence::stored_by(words, ids, init, groups, e.backed as usize, notice, payload)
}
