// The service screen of a controller, as text.
#![tactic(auto)]

ghost use Rattle.std.specs.Prelude.{◌≡◌, true, false, ◌≤◌, length};
ghost use Rattle.text.specs.Written.{Wrote};
ghost use Rattle.pool.specs.Pool.{record_in};
ghost use Rattle.evidence.specs.Shown.{BackedIn};
ghost use Rattle.engine.specs.Meaning.{controller_is};
ghost use Rattle.service.specs.Service.{service_text, ServiceShows};
ghost use Rattle.service.specs.ServiceParts.{conflict_screen, EvidenceHeld};

use engine::Controller;
use evidence::{Evidence, GROUPS, KEYS, Ring};
use pool::{POOL_WORDS, RECORD};
use statements::NOTICES;
use views::View;

mod heads;
mod notices;
mod scheduled;
mod sets;
mod waits;

pub use scheduled::after;

// No text is longer: 168 bytes of its first three lines, 155 of the candidates, 222 of each of 64 notices and 1740 of what is awaited.
pub const SCREEN_BYTES: usize = 32768;

// The screen after a conflict.
fn put_conflict(
    out: &mut [u8],
    c: Controller,
    words: &[u64; POOL_WORDS],
    ids: &[u16; RECORD],
    init: u64,
    e: Evidence,
    certs: &[u64; NOTICES],
    groups: &[u64; GROUPS],
) -> usize
    requires { (32768 ≤ length out.old) × BackedIn words.now ids.now init groups.now e.backed }
    ensures { Wrote out.old 0 (conflict_screen init (record_in words.now ids.now) e certs.now c) result out.new × (result ≤ 32768) }
{
    let a = heads::put_head(out, c.number, false, false, c.init, c.entered, e.wished);
    let b = text::write_text(out, a, b"conflict\n");
    let n = c.notices.min(NOTICES);
    let d = notices::put_notices(
        out,
        b,
        words,
        ids,
        init,
        e,
        certs,
        groups,
        n,
        c.held,
        c.delivered,
    );
    text::write_text(out, d, b"turns are refused with 7\n")
}

// The screen where there is no conflict. Its windows change nothing but what it waits for, and there it is asked what it would do without them.
fn put_agreed(
    out: &mut [u8],
    c: Controller,
    words: &[u64; POOL_WORDS],
    ids: &[u16; RECORD],
    ring: Ring,
    e: Evidence,
    candidates: &[u64; View::LIMIT],
    greatest: &[u64; View::LIMIT],
    certs: &[u64; NOTICES],
    groups: &[u64; GROUPS],
) -> usize
    requires { (32768 ≤ length out.old) × (c.ready ≡ true) × (e.conflict ≡ false) × EvidenceHeld c ring (record_in words.now ids.now) candidates.now greatest.now certs.now e × BackedIn words.now ids.now ring.init groups.now e.backed }
    ensures { Wrote out.old 0 (service_text (controller_is c) (record_in words.now ids.now)) result out.new × (result ≤ 32768) }
{
    let open = Controller { windows: 0, ..c };
    let s = engine::of_controller(open, ring, e, greatest, 0);
    let h = c.entered;
    let a = heads::put_head(out, c.number, s.left, s.stands, s.top, h, e.wished);
    let b = heads::put_candidates(out, a, e.many, candidates, e.count);
    let n = c.notices.min(NOTICES);
    let d = notices::put_notices(
        out,
        b,
        words,
        ids,
        ring.init,
        e,
        certs,
        groups,
        n,
        c.held,
        c.delivered,
    );
    if e.many {
        return text::write_text(out, d, b"turns are refused with 6\n");
    }
    waits::put_awaited(
        out, d, c, words, ids, ring, e, candidates, greatest, certs, s,
    )
}

// Writes the service screen of a controller with its record from the start of `out`, and answers its length; 0, and `out` as it was, where `out` has fewer than 32768 bytes.
// The votes are gathered in memory that is lent, and that may hold anything.
pub fn screen(
    c: Controller,
    ids: &[u16; RECORD],
    words: &[u64; POOL_WORDS],
    keys: &mut [u64; KEYS],
    groups: &mut [u64; GROUPS],
    out: &mut [u8],
) -> usize
    ensures { ServiceShows (controller_is c) (record_in words.now ids.now) out.old result out.new }
{
    if out.len() < SCREEN_BYTES {
        return 0;
    }
    if !c.ready {
        return text::write_text(out, 0, b"not set up\n");
    }
    let ring = engine::ring_of(c);
    let mut candidates = [0u64; View::LIMIT];
    let mut greatest = [0u64; View::LIMIT];
    let mut certs = [0u64; NOTICES];
    let e = evidence::of_record(
        words,
        ids,
        ring,
        &c.senders,
        keys,
        groups,
        &mut candidates,
        &mut greatest,
        &mut certs,
    );
    if e.conflict {
        return put_conflict(out, c, words, ids, ring.init, e, &certs, groups);
    }
    put_agreed(
        out,
        c,
        words,
        ids,
        ring,
        e,
        &candidates,
        &greatest,
        &certs,
        groups,
    )
}
