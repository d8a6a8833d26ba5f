// What a record in lent memory shows, as the text of a service screen.
#![tactic(auto)]

ghost use Rattle.std.specs.Prelude.{◌≡◌, false, [], ◌∷◌, ◌++◌, ◌+◌, ◌*◌, ◌≤◌, ◌<◌, eqb, length};
ghost use Rattle.text.specs.Text.{dec_text};
ghost use Rattle.text.specs.Written.{Wrote};
ghost use Rattle.statements.specs.Parts.{tail_text};
ghost use Rattle.protocol.specs.Count.{complete_after};
ghost use Rattle.views.specs.View.{view_of, ring_of_word, views_of};
ghost use Rattle.pool.specs.Pool.{record_in};
ghost use Rattle.evidence.specs.Evidence.{ring_is};
ghost use Rattle.evidence.specs.Notices.{senders_of};
ghost use Rattle.evidence.specs.Shown.{BackedIn};
ghost use Rattle.screen.specs.Screen.{wished_line, candidates_line, views_line, certificate_line, greatest_word, ScreenShows};
ghost use Rattle.screen.specs.ScreenParts.{notice_text, kept_or_stored, lines_to, certified_text, lines_of, Few};

use evidence::{Evidence, GROUPS, KEYS, Ring};
use pool::{POOL_WORDS, RECORD};
use statements::NOTICES;
use views::View;

// No text is longer: 16 bytes of the wished view, 158 of sixteen candidates, 156 of sixteen views of a history and 47 of each of 64 certificates.
pub const SHOWN_BYTES: usize = 4096;

// A comma and a view for each of the first `n` of a list.
fn put_list(out: &mut [u8], from: usize, list: &[u64; View::LIMIT], n: usize) -> usize
    requires { (n ≤ 16) × (from + 9 * n ≤ length out.old) }
    ensures { Wrote out.old from (tail_text (views_of list.now n)) result out.new }
{
    let mut at = from;
    for word in &list[..n] {
        at = statements::put_view(out, at, View::of_word(*word));
    }
    at
}

// The rest of a line of views: their count and they themselves, in at most 148 bytes.
fn put_views(out: &mut [u8], at: usize, list: &[u64; View::LIMIT], n: usize) -> usize
    requires { (n ≤ 16) × (at + 148 ≤ length out.old) }
    ensures { Wrote out.old at ((44 ∷ dec_text n) ++ (tail_text (views_of list.now n) ++ (10 ∷ []))) result out.new }
{
    let a = statements::put_number(out, at, n as u64);
    let b = put_list(out, a, list, n);
    text::write_text(out, b, b"\n")
}

fn put_wished(out: &mut [u8], wished: u64) -> usize
    requires { 16 ≤ length out.old }
    ensures { Wrote out.old 0 (wished_line (view_of wished)) result out.new }
{
    let a = text::write_text(out, 0, b"wished");
    let b = statements::put_view(out, a, View::of_word(wished));
    text::write_text(out, b, b"\n")
}

fn put_candidates(
    out: &mut [u8],
    at: usize,
    many: bool,
    list: &[u64; View::LIMIT],
    n: usize,
) -> usize
    requires { (many ≡ false → n ≤ 16) × (at + 158 ≤ length out.old) }
    ensures { Wrote out.old at (candidates_line many (views_of list.now n)) result out.new }
{
    if many {
        return text::write_text(out, at, b"candidates,many\n");
    }
    let a = text::write_text(out, at, b"candidates");
    put_views(out, a, list, n)
}

fn put_greatest(out: &mut [u8], at: usize, list: &[u64; View::LIMIT], n: usize) -> usize
    requires { (n ≤ 16) × (at + 156 ≤ length out.old) }
    ensures { Wrote out.old at (views_line greatest_word (views_of list.now n)) result out.new }
{
    let a = text::write_text(out, at, b"greatest");
    put_views(out, a, list, n)
}

// The number of notice j, in a ring with more than one.
fn put_notice(out: &mut [u8], at: usize, one: bool, j: usize) -> usize
    requires { (j < 64) × (at + 3 ≤ length out.old) }
    ensures { Wrote out.old at (notice_text one j) result out.new }
{
    if one {
        at
    } else {
        statements::put_number(out, at, j as u64)
    }
}

// Whether it is stored.
fn put_standing(out: &mut [u8], at: usize, stored: bool) -> usize
    requires { at + 7 ≤ length out.old }
    ensures { Wrote out.old at (44 ∷ kept_or_stored stored) result out.new }
{
    let word: &[u8] = if stored { b",stored" } else { b",kept" };
    text::write_text(out, at, word)
}

// The line of the certificate of notice j, in at most 47 bytes.
fn put_certificate(
    out: &mut [u8],
    at: usize,
    one: bool,
    j: usize,
    payload: u64,
    stored: bool,
    after: usize,
) -> usize
    requires { (j < 64) × (after ≤ 512) × (at + 47 ≤ length out.old) }
    ensures { Wrote out.old at (certificate_line one j payload stored after) result out.new × (result ≤ at + 47) }
{
    let a = text::write_text(out, at, b"certificate");
    let b = put_notice(out, a, one, j);
    let c = statements::put_number(out, b, payload);
    let d = put_standing(out, c, stored);
    let e = statements::put_number(out, d, after as u64);
    text::write_text(out, e, b"\n")
}

// The lines of the certificates of n notices, by the evidence e of a record: the groups of acks and stores by quorums of sealed tops tell after how many statements each was complete.
fn put_lines(
    out: &mut [u8],
    from: usize,
    n: usize,
    words: &[u64; POOL_WORDS],
    ids: &[u16; RECORD],
    init: u64,
    e: Evidence,
    certs: &[u64; NOTICES],
    groups: &[u64; GROUPS],
) -> usize
    requires { (n ≤ 64) × (from + 47 * n ≤ length out.old) × BackedIn words.now ids.now init groups.now e.backed }
    ensures { Wrote out.old from (lines_to (eqb n 1) e.certified certs.now e.stored (complete_after (ring_of_word init) (record_in words.now ids.now)) n) result out.new × (result ≤ from + 47 * n) }
{
    let one = n == 1;
    let mut at = from;
    for j in 0..n {
        if !statements::has(e.certified, j) {
            continue;
        }
        let m = certs[j];
        let is_stored = statements::has(e.stored, j);
        let after = evidence::complete_after(words, ids, init, groups, e.backed as usize, j, m);
        at = put_certificate(out, at, one, j, m, is_stored, after);
    }
    at
}

// The same, or that no notice has a certificate.
fn put_certificates(
    out: &mut [u8],
    from: usize,
    n: usize,
    words: &[u64; POOL_WORDS],
    ids: &[u16; RECORD],
    init: u64,
    e: Evidence,
    certs: &[u64; NOTICES],
    groups: &[u64; GROUPS],
) -> usize
    requires { (n ≤ 64) × (from + 3025 ≤ length out.old) × BackedIn words.now ids.now init groups.now e.backed }
    ensures { Wrote out.old from (certified_text n e.certified certs.now e.stored (complete_after (ring_of_word init) (record_in words.now ids.now))) result out.new × (result ≤ from + 3025) }
{
    let at = put_lines(out, from, n, words, ids, init, e, certs, groups);
    if at != from {
        return at;
    }
    text::write_text(out, at, b"certificate,none\n")
}

fn put_evidence(
    out: &mut [u8],
    n: usize,
    words: &[u64; POOL_WORDS],
    ids: &[u16; RECORD],
    init: u64,
    e: Evidence,
    candidates: &[u64; View::LIMIT],
    greatest: &[u64; View::LIMIT],
    certs: &[u64; NOTICES],
    groups: &[u64; GROUPS],
) -> usize
    requires { (n ≤ 64) × (4096 ≤ length out.old) × Few e × BackedIn words.now ids.now init groups.now e.backed }
    ensures { Wrote out.old 0 (lines_of n e candidates.now greatest.now certs.now (complete_after (ring_of_word init) (record_in words.now ids.now))) result out.new × (result ≤ 4096) }
{
    let a = put_wished(out, e.wished);
    if e.conflict {
        return text::write_text(out, a, b"conflict\n");
    }
    let b = put_candidates(out, a, e.many, candidates, e.count);
    let c = put_greatest(out, b, greatest, e.length);
    put_certificates(out, c, n, words, ids, init, e, certs, groups)
}

// Writes what a record shows from the start of `out`, in lines, and answers the text's length; 0, and `out` as it was, where `out` has fewer than 4096 bytes.
pub fn shown(
    words: &[u64; POOL_WORDS],
    ids: &[u16; RECORD],
    ring: Ring,
    senders: &[u8; NOTICES],
    out: &mut [u8],
) -> usize
    ensures { ScreenShows (ring_is ring) (senders_of senders.now ring.notices) (record_in words.now ids.now) out.old result out.new }
{
    if out.len() < SHOWN_BYTES {
        return 0;
    }
    let n = ring.notices.min(NOTICES);
    let mut candidates = [0u64; View::LIMIT];
    let mut greatest = [0u64; View::LIMIT];
    let mut certs = [0u64; NOTICES];
    let mut keys = [0u64; KEYS];
    let mut groups = [0u64; GROUPS];
    let e = evidence::of_record(
        words,
        ids,
        ring,
        senders,
        &mut keys,
        &mut groups,
        &mut candidates,
        &mut greatest,
        &mut certs,
    );
    put_evidence(
        out,
        n,
        words,
        ids,
        ring.init,
        e,
        &candidates,
        &greatest,
        &certs,
        &groups,
    )
}
