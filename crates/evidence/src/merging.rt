// What the reports that count on the views that need them bind each notice to.
ghost use Rattle.std.specs.Prelude.{◌≡◌, ◌≤◌, ◌<◌};
ghost use Rattle.protocol.specs.Lists.{filter};
ghost use Rattle.protocol.specs.Turn.{merge_all};
ghost use Rattle.views.specs.View.{views_of};
ghost use Rattle.pool.specs.Pool.{record_in};
ghost use Rattle.statements.specs.Block.{binding_is};
ghost use Rattle.evidence.specs.Evidence.{ring_is, Settled, reports_there, MergedAll};
ghost use Rattle.evidence.specs.Notices.{senders_of};
ghost use Rattle.evidence.specs.Reports.{counts_among, Usable, Touched};

use crate::reports::Basis;
use crate::{Evidence, Notice, Ring, binding, prepares, remaining, reports};
use pool::{CAPACITY, POOL_WORDS, RECORD};
use statements::{Binding, NOTICES};
use tables::{KEYS, ROWS};
use views::View;

// Lists the reports that count on the first n views of a list.
// Every number is written, and stays only if it is that of such a report, so that the loop has no branch.
fn among_in(
    words: &[u64; POOL_WORDS],
    ids: &[u16; RECORD],
    basis: &Basis,
    needed: &[u64; View::LIMIT],
    n: usize,
    listed: &mut [u16; RECORD],
)
    requires { (n ≤ 16) × Usable basis.now.judge basis.now.keys.now basis.now.rows.now }
    ensures { record_in words.now listed.new ≡ filter (counts_among basis.now.judge basis.now.candidates.now basis.now.certs.now basis.now.keys.now (views_of needed.now n)) (record_in words.now ids.now) }
{
    let mut count = 0;
    for s in &ids[..pool::record_length(ids)] {
        let hit = basis.counts_among(words, needed, n, *s);
        listed[count] = *s;
        count += usize::from(hit);
    }
    listed[CAPACITY] = count as u16;
}

// Lists the reports that count on the views of the greatest history that need them.
fn list_counted(
    words: &[u64; POOL_WORDS],
    ids: &[u16; RECORD],
    ring: Ring,
    senders: &[u8; NOTICES],
    e: Evidence,
    candidates: &[u64; View::LIMIT],
    greatest: &[u64; View::LIMIT],
    certs: &[u64; NOTICES],
    listed: &mut [u16; RECORD],
)
    requires { Settled (ring_is ring) (senders_of senders.now ring.notices) (record_in words.now ids.now) candidates.now greatest.now certs.now e }
    ensures { record_in words.now listed.new ≡ reports_there (ring_is ring) (senders_of senders.now ring.notices) (record_in words.now ids.now) }
{
    let mut keys = [0u64; KEYS];
    let mut rows = [0u16; ROWS];
    let known = prepares::list(words, ids, ring.notices, senders, &mut keys, &mut rows);
    let basis = Basis {
        judge: reports::judge_by(ring, e, known),
        candidates,
        certs,
        keys: &keys,
        rows: &rows,
    };
    let mut needed = [0u64; View::LIMIT];
    let n = remaining::needed(greatest, e.length, e.skipped, ring.init, &mut needed);
    among_in(words, ids, &basis, &needed, n, listed);
}

// The notices of which a listed report may tell a binding.
fn touched(words: &[u64; POOL_WORDS], listed: &[u16; RECORD]) -> u64
    ensures { Touched (record_in words.now listed.now) result }
{
    let mut seen = 0;
    for s in &listed[..pool::record_length(listed)] {
        let told = statements::either(pool::bound(words, *s), pool::barred(words, *s));
        seen = statements::either(seen, told);
    }
    seen
}

// The binding `own` of notice j, merged with what the listed reports tell of it.
fn merge_listed(
    words: &[u64; POOL_WORDS],
    listed: &[u16; RECORD],
    j: usize,
    own: Binding,
) -> Binding
    ensures { binding_is result ≡ merge_all j (binding_is own) (record_in words.now listed.now) }
{
    let mut b = own;
    for i in (0..pool::record_length(listed)).rev() {
        b = binding::both(binding::told(words, listed[i], j), b);
    }
    b
}

// The notices, merged with what the listed reports tell of each in the set `some`; they tell a binding of no other. By index, since a proof knows no element that is
// written through an iterator.
fn merge_some(
    words: &[u64; POOL_WORDS],
    listed: &[u16; RECORD],
    some: u64,
    held: [Notice; NOTICES],
) -> [Notice; NOTICES]
    requires { Touched (record_in words.now listed.now) some }
    ensures { MergedAll held (record_in words.now listed.now) result }
{
    let mut all = held;
    for j in 0..NOTICES {
        if statements::has(some, j) {
            let binding = merge_listed(words, listed, j, all[j].binding);
            all[j] = Notice { binding };
        }
    }
    all
}

// The notices of a controller, each merged with what is told of it by the reports that count on the views of the greatest history that need them.
pub fn merged(
    words: &[u64; POOL_WORDS],
    ids: &[u16; RECORD],
    ring: Ring,
    senders: &[u8; NOTICES],
    e: Evidence,
    candidates: &[u64; View::LIMIT],
    greatest: &[u64; View::LIMIT],
    certs: &[u64; NOTICES],
    held: [Notice; NOTICES],
) -> [Notice; NOTICES]
    requires { Settled (ring_is ring) (senders_of senders.now ring.notices) (record_in words.now ids.now) candidates.now greatest.now certs.now e }
    ensures { MergedAll held (reports_there (ring_is ring) (senders_of senders.now ring.notices) (record_in words.now ids.now)) result }
{
    let mut listed = [0u16; RECORD];
    list_counted(
        words,
        ids,
        ring,
        senders,
        e,
        candidates,
        greatest,
        certs,
        &mut listed,
    );
    let some = touched(words, &listed);
    merge_some(words, &listed, some, held)
}
