// Quorums, counted in a record in lent memory: yes or no, and how many statements were read.
ghost use Rattle.std.specs.Prelude.{◌≡◌};
ghost use Rattle.protocol.specs.Count.{count_quorum};
ghost use Rattle.views.specs.View.{view_of, ring_of_word};
ghost use Rattle.views.specs.Tally.{count_is};
ghost use Rattle.pool.specs.Pool.{record_in};
ghost use Rattle.votes.specs.Question.{asks};
ghost use Rattle.evidence.specs.Notices.{senders_of};
ghost use Rattle.pekdrav.specs.Counted.{count_words, ReportsTold};

use evidence::{GROUPS, KEYS, Ring};
use pool::{POOL_WORDS, RECORD};
use statements::NOTICES;
use views::{Count, View};
use votes::Question;

// How many words a count is told in.
const WORDS: usize = 2;

// Tells a count.
fn tell(out: &mut [u64; WORDS], c: Count)
    ensures { out.new ≡ count_words (count_is c) }
{
    *out = [c.reached as u64, c.read as u64];
}

// Counts those who signed a vote of a kind at a view: an agree-view (3) for the view `what`, an agree-history (4) for the first `length` views of `history`, an ack (7) or a store (8)
// of the notice for the payload `what`. Nobody signed another kind, or a history of more views than are lent.
#[unsafe(no_mangle)]
pub extern "C" fn pekdrav_raw_record_count(
    ids: &[u16; RECORD],
    words: &[u64; POOL_WORDS],
    kind: u8,
    notice: u8,
    at: u64,
    what: u64,
    history: &[u64; View::LIMIT],
    length: usize,
    out: &mut [u64; WORDS],
)
    ensures { out.new ≡ count_words (count_quorum 16 (view_of at) (asks (record { kind = kind; notice = notice; at = at; what = what; length = length }) history.now) (record_in words.now ids.now)) }
{
    let q = Question {
        kind,
        notice,
        at,
        what,
        length,
    };
    tell(out, votes::count(words, ids, q, history));
}

// Counts the reports on u that count, in the ring of this initial view and of the notices of the first `count` senders. Answers 1; or 0, and `out` as it was, where the record shows
// a conflict or more than sixteen candidates: no report is judged then. The votes are gathered in `keys` and `groups`, which may hold anything.
#[unsafe(no_mangle)]
pub extern "C" fn pekdrav_raw_record_count_reports(
    ids: &[u16; RECORD],
    words: &[u64; POOL_WORDS],
    init: u64,
    count: u8,
    senders: &[u8; NOTICES],
    keys: &mut [u64; KEYS],
    groups: &mut [u64; GROUPS],
    u: u64,
    out: &mut [u64; WORDS],
) -> u8
    ensures { ReportsTold (ring_of_word init) (senders_of senders.now count) (record_in words.now ids.now) (view_of u) out.old result out.new }
{
    let mut candidates = [0u64; View::LIMIT];
    let mut greatest = [0u64; View::LIMIT];
    let mut certs = [0u64; NOTICES];
    let ring = Ring {
        init,
        notices: count as usize,
    };
    let e = evidence::of_record(
        words,
        ids,
        ring,
        senders,
        keys,
        groups,
        &mut candidates,
        &mut greatest,
        &mut certs,
    );
    if e.conflict || e.many {
        return 0;
    }
    tell(
        out,
        evidence::count_reports(
            words,
            ids,
            ring,
            senders,
            e,
            &candidates,
            &greatest,
            &certs,
            u,
        ),
    );
    1
}
