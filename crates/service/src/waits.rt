// What a controller waits for.
ghost use Rattle.std.specs.Prelude.{◌≡◌, ◌+◌, ◌*◌, ◌≤◌, length};
ghost use Rattle.text.specs.Written.{Wrote};
ghost use Rattle.views.specs.View.{view_of, views_of};
ghost use Rattle.views.specs.Held.{view_is};
ghost use Rattle.pool.specs.Pool.{record_in};
ghost use Rattle.evidence.specs.Evidence.{ring_is, Settled};
ghost use Rattle.evidence.specs.Notices.{senders_of};
ghost use Rattle.rules.specs.Rules.{SituationOf, ToldOf};
ghost use Rattle.engine.specs.Meaning.{controller_is};
ghost use Rattle.engine.specs.Situation.{RingOf, ToldTo};
ghost use Rattle.service.specs.Service.{reports_line, without_windows, waits_for_window, waits_text};
ghost use Rattle.service.specs.ServiceParts.{lines_for, reports_held, waits_held};

use crate::sets;
use engine::Controller;
use evidence::{Evidence, Notice, Ring};
use pool::{POOL_WORDS, RECORD};
use rules::Situation;
use statements::{BLOCK, NOTICES, Told};
use views::View;

// That it waits for reports on u from a set, to enter t, in at most 107 bytes.
fn put_line(out: &mut [u8], at: usize, t: u64, u: u64, from: u32) -> usize
    requires { at + 107 ≤ length out.old }
    ensures { Wrote out.old at (reports_line (view_of t) (view_of u) from) result out.new × (result ≤ at + 107) }
{
    let a = text::write_text(out, at, b"waits to enter ");
    let b = sets::put_view(out, a, t);
    let c = text::write_text(out, b, b" for reports on ");
    let d = sets::put_view(out, c, u);
    let e = text::write_text(out, d, b" from ");
    let f = sets::put_set(out, e, from);
    text::write_text(out, f, b"\n")
}

// The lines of those of the first n views of a list that have no quorum of counted reports.
fn put_lines(
    out: &mut [u8],
    from: usize,
    words: &[u64; POOL_WORDS],
    ids: &[u16; RECORD],
    ring: Ring,
    senders: &[u8; NOTICES],
    e: Evidence,
    candidates: &[u64; View::LIMIT],
    greatest: &[u64; View::LIMIT],
    certs: &[u64; NOTICES],
    t: u64,
    list: &[u64; View::LIMIT],
    n: usize,
) -> usize
    requires { (n ≤ 16) × (from + 107 * n ≤ length out.old) × Settled (ring_is ring) (senders_of senders.now ring.notices) (record_in words.now ids.now) candidates.now greatest.now certs.now e }
    ensures { Wrote out.old from (lines_for (ring_is ring) (senders_of senders.now ring.notices) (record_in words.now ids.now) (view_of t) (views_of list.now n)) result out.new × (result ≤ from + 107 * n) }
{
    let mut at = from;
    for u in &list[..n] {
        let u = *u;
        let who = evidence::reporters(words, ids, ring, senders, e, candidates, greatest, certs, u);
        if views::makes_quorum(u, who) {
            continue;
        }
        at = put_line(out, at, t, u, views::members_without(u, who));
    }
    at
}

// The lines of the views that need reports, if controller k is a member of t and has not entered it, in at most 1712 bytes.
fn put_reports(
    out: &mut [u8],
    at: usize,
    words: &[u64; POOL_WORDS],
    ids: &[u16; RECORD],
    ring: Ring,
    senders: &[u8; NOTICES],
    e: Evidence,
    candidates: &[u64; View::LIMIT],
    greatest: &[u64; View::LIMIT],
    certs: &[u64; NOTICES],
    t: View,
    k: u8,
    entered: bool,
) -> usize
    requires { (at + 1712 ≤ length out.old) × Settled (ring_is ring) (senders_of senders.now ring.notices) (record_in words.now ids.now) candidates.now greatest.now certs.now e }
    ensures { Wrote out.old at (reports_held (ring_is ring) (senders_of senders.now ring.notices) (record_in words.now ids.now) (view_is t) k entered) result out.new × (result ≤ at + 1712) }
{
    if !t.has_member(k) || entered {
        return at;
    }
    let mut list = [0u64; View::LIMIT];
    let n = evidence::needed(greatest, e.length, e.skipped, ring.init, &mut list);
    put_lines(
        out,
        at,
        words,
        ids,
        ring,
        senders,
        e,
        candidates,
        greatest,
        certs,
        t.word(),
        &list,
        n,
    )
}

// The same, and that it waits for a window where it does; or that it waits for nothing. In at most 1740 bytes.
fn put_waits(
    out: &mut [u8],
    at: usize,
    words: &[u64; POOL_WORDS],
    ids: &[u16; RECORD],
    ring: Ring,
    senders: &[u8; NOTICES],
    e: Evidence,
    candidates: &[u64; View::LIMIT],
    greatest: &[u64; View::LIMIT],
    certs: &[u64; NOTICES],
    t: View,
    k: u8,
    entered: bool,
    window: bool,
) -> usize
    requires { (at + 1740 ≤ length out.old) × Settled (ring_is ring) (senders_of senders.now ring.notices) (record_in words.now ids.now) candidates.now greatest.now certs.now e }
    ensures { Wrote out.old at (waits_held (reports_held (ring_is ring) (senders_of senders.now ring.notices) (record_in words.now ids.now) (view_is t) k entered) window) result out.new × (result ≤ at + 1740) }
{
    let a = put_reports(
        out, at, words, ids, ring, senders, e, candidates, greatest, certs, t, k, entered,
    );
    if window {
        return text::write_text(out, a, b"waits for a window to leave\n");
    }
    if a != at {
        return a;
    }
    text::write_text(out, a, b"waits for nothing\n")
}

// The block of what a report would tell of the first n notices. No rule that is asked here looks at it, but what each promises is said with the block of a report.
fn tell_notices(
    told: &mut [u64; BLOCK],
    held: [Notice; NOTICES],
    e: Evidence,
    certs: &[u64; NOTICES],
    n: usize,
)
    requires { n ≤ 64 }
    ensures { ToldTo held e certs.now n told.new }
{
    for j in 0..n {
        let t = Told {
            binding: held[j].binding,
            stored: statements::has(e.certified, j),
            kept: certs[j],
        };
        statements::tell(told, j, t);
    }
}

// Whether the controller c has windows and would leave without them, in the situation that it has then.
fn awaits_window(
    c: Controller,
    words: &[u64; POOL_WORDS],
    ids: &[u16; RECORD],
    told: &[u64; BLOCK],
    s: Situation,
) -> bool
    requires { SituationOf (without_windows (controller_is c)) (record_in words.now ids.now) s × ToldOf (without_windows (controller_is c)) (record_in words.now ids.now) told.now × (s.minute ≡ 0) }
    ensures { result ≡ waits_for_window (controller_is c) (record_in words.now ids.now) }
{
    if c.windows == 0 {
        return false;
    }
    let mut own = [0u16; RECORD];
    rules::own_of(words, ids, s.number, &mut own);
    rules::rule9(words, &own, told, s).is_some()
}

// What the controller c waits for where its turns are not refused, in at most 1740 bytes; s is its situation without windows.
pub fn put_awaited(
    out: &mut [u8],
    at: usize,
    c: Controller,
    words: &[u64; POOL_WORDS],
    ids: &[u16; RECORD],
    ring: Ring,
    e: Evidence,
    candidates: &[u64; View::LIMIT],
    greatest: &[u64; View::LIMIT],
    certs: &[u64; NOTICES],
    s: Situation,
) -> usize
    requires { (at + 1740 ≤ length out.old) × RingOf c ring × Settled (ring_is ring) (senders_of c.senders ring.notices) (record_in words.now ids.now) candidates.now greatest.now certs.now e × SituationOf (without_windows (controller_is c)) (record_in words.now ids.now) s × (s.minute ≡ 0) }
    ensures { Wrote out.old at (waits_text (controller_is c) (record_in words.now ids.now)) result out.new × (result ≤ at + 1740) }
{
    let mut told = [0u64; BLOCK];
    tell_notices(&mut told, c.held, e, certs, c.notices.min(NOTICES));
    let window = awaits_window(c, words, ids, &told, s);
    put_waits(
        out, at, words, ids, ring, &c.senders, e, candidates, greatest, certs, s.top, s.number,
        s.entered, window,
    )
}
