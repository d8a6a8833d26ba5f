// The lines of the notices.
ghost use Rattle.std.specs.Prelude.{◌++◌, ◌+◌, ◌*◌, ◌<◌, ◌≤◌, length};
ghost use Rattle.text.specs.Written.{Wrote};
ghost use Rattle.statements.specs.Block.{binding_is};
ghost use Rattle.pool.specs.Pool.{record_in};
ghost use Rattle.evidence.specs.Shown.{BackedIn};
ghost use Rattle.service.specs.Service.{binding_text, delivered_text, next_word, notice_line, lines_below};
ghost use Rattle.service.specs.ServiceParts.{stored_by, certificate_by, acked_text, start_text, end_text, held_text, held_line};

use crate::sets;
use evidence::{Evidence, GROUPS, Notice};
use pool::{POOL_WORDS, RECORD};
use statements::{Binding, NOTICES};

// That it is bound to a payload, in at most 29 bytes.
fn put_bound(out: &mut [u8], at: usize, m: u64) -> usize
    requires { at + 29 ≤ length out.old }
    ensures { Wrote out.old at (binding_text (binding_is (Binding.Bound m))) result out.new × (result ≤ at + 29) }
{
    let a = text::write_text(out, at, b"bound to ");
    text::write_dec(out, a, m)
}

// How it is bound, in at most 29 bytes.
fn put_binding(out: &mut [u8], at: usize, b: Binding) -> usize
    requires { at + 29 ≤ length out.old }
    ensures { Wrote out.old at (binding_text (binding_is b)) result out.new × (result ≤ at + 29) }
{
    match b {
        Binding::Unbound => text::write_text(out, at, b"unbound"),
        Binding::Bound(m) => put_bound(out, at, m),
        Binding::Barred => text::write_text(out, at, b"barred"),
    }
}

// The line up to the evidence, in at most 42 bytes.
fn put_start(out: &mut [u8], at: usize, j: usize, b: Binding) -> usize
    requires { (j < 64) × (at + 42 ≤ length out.old) }
    ensures { Wrote out.old at (start_text j (binding_is b)) result out.new × (result ≤ at + 42) }
{
    let a = text::write_text(out, at, b"notice ");
    let c = text::write_dec(out, a, j as u64);
    let d = text::write_text(out, c, b": ");
    let e = put_binding(out, d, b);
    text::write_text(out, e, b"; ")
}

// The certificate for m by those who acked it, in at most 99 bytes.
fn put_acked(out: &mut [u8], at: usize, m: u64, acked: u32) -> usize
    requires { at + 99 ≤ length out.old }
    ensures { Wrote out.old at (acked_text m acked) result out.new × (result ≤ at + 99) }
{
    let a = text::write_text(out, at, b"certificate for ");
    let b = text::write_dec(out, a, m);
    let c = text::write_text(out, b, b" acked by ");
    sets::put_set(out, c, acked)
}

// By whom it is stored, if it is, in at most 63 bytes.
fn put_stored(out: &mut [u8], at: usize, by: Option<u32>) -> usize
    requires { at + 63 ≤ length out.old }
    ensures { Wrote out.old at (stored_by by) result out.new × (result ≤ at + 63) }
{
    match by {
        None => text::write_text(out, at, b"not stored"),
        Some(set) => {
            let a = text::write_text(out, at, b"stored by ");
            sets::put_set(out, a, set)
        }
    }
}

// The certificate for m, who acked it, and who stored it if it is stored, in at most 166 bytes.
fn put_certificate(out: &mut [u8], at: usize, m: u64, acked: u32, by: Option<u32>) -> usize
    requires { at + 166 ≤ length out.old }
    ensures { Wrote out.old at (certificate_by m acked by ++ next_word) result out.new × (result ≤ at + 166) }
{
    let a = put_acked(out, at, m, acked);
    let b = text::write_text(out, a, b"; ");
    let c = put_stored(out, b, by);
    text::write_text(out, c, b"; ")
}

// Whether it was delivered, in at most 13 bytes.
fn put_delivered(out: &mut [u8], at: usize, is: bool) -> usize
    requires { at + 13 ≤ length out.old }
    ensures { Wrote out.old at (delivered_text is) result out.new × (result ≤ at + 13) }
{
    if is {
        return text::write_text(out, at, b"delivered");
    }
    text::write_text(out, at, b"not delivered")
}

// The end of the line, in at most 14 bytes.
fn put_end(out: &mut [u8], at: usize, is: bool) -> usize
    requires { at + 14 ≤ length out.old }
    ensures { Wrote out.old at (end_text is) result out.new × (result ≤ at + 14) }
{
    let a = put_delivered(out, at, is);
    text::write_text(out, a, b"\n")
}

// What the evidence e tells of notice j, in at most 166 bytes: nothing after a conflict.
fn put_evidence(
    out: &mut [u8],
    at: usize,
    words: &[u64; POOL_WORDS],
    ids: &[u16; RECORD],
    init: u64,
    e: Evidence,
    certs: &[u64; NOTICES],
    groups: &[u64; GROUPS],
    j: usize,
) -> usize
    requires { (j < 64) × (at + 166 ≤ length out.old) × BackedIn words.now ids.now init groups.now e.backed }
    ensures { Wrote out.old at (held_text init (record_in words.now ids.now) e certs.now j) result out.new × (result ≤ at + 166) }
{
    if e.conflict {
        return at;
    }
    if !statements::has(e.certified, j) {
        return text::write_text(out, at, b"no certificate; not stored; ");
    }
    let m = certs[j];
    let n = e.backed as usize;
    let acked = evidence::acked_by(words, ids, init, groups, n, j as u8, m);
    if !statements::has(e.stored, j) {
        return put_certificate(out, at, m, acked, None);
    }
    let by = evidence::stored_by(words, ids, init, groups, n, j as u8, m);
    put_certificate(out, at, m, acked, Some(by))
}

// The line of notice j, with its binding and whether it was delivered, in at most 222 bytes.
fn put_notice(
    out: &mut [u8],
    at: usize,
    words: &[u64; POOL_WORDS],
    ids: &[u16; RECORD],
    init: u64,
    e: Evidence,
    certs: &[u64; NOTICES],
    groups: &[u64; GROUPS],
    j: usize,
    b: Binding,
    delivered: bool,
) -> usize
    requires { (j < 64) × (at + 222 ≤ length out.old) × BackedIn words.now ids.now init groups.now e.backed }
    ensures { Wrote out.old at (notice_line j (binding_is b) (held_text init (record_in words.now ids.now) e certs.now j) delivered) result out.new × (result ≤ at + 222) }
{
    let a = put_start(out, at, j, b);
    let c = put_evidence(out, a, words, ids, init, e, certs, groups, j);
    put_end(out, c, delivered)
}

// The lines of the first n notices, with their bindings and the set of those delivered.
pub fn put_notices(
    out: &mut [u8],
    from: usize,
    words: &[u64; POOL_WORDS],
    ids: &[u16; RECORD],
    init: u64,
    e: Evidence,
    certs: &[u64; NOTICES],
    groups: &[u64; GROUPS],
    n: usize,
    held: [Notice; NOTICES],
    delivered: u64,
) -> usize
    requires { (n ≤ 64) × (from + 222 * n ≤ length out.old) × BackedIn words.now ids.now init groups.now e.backed }
    ensures { Wrote out.old from (lines_below n (held_line init (record_in words.now ids.now) e certs.now held delivered)) result out.new × (result ≤ from + 222 * n) }
{
    let mut at = from;
    for j in 0..n {
        let b = held[j].binding;
        let done = statements::has(delivered, j);
        at = put_notice(out, at, words, ids, init, e, certs, groups, j, b, done);
    }
    at
}
