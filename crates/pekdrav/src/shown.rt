// What a record in lent memory shows.
ghost use Rattle.std.specs.Prelude.{◌≡◌, cond, ◌≤◌, length};
ghost use Rattle.std.proofs.lemmas.List.Edits.{sets};
ghost use Rattle.views.specs.View.{view_of, ring_of_word, views_of, word_of};
ghost use Rattle.pool.specs.Pool.{record_in};
ghost use Rattle.screen.specs.Screen.{ScreenShows};
ghost use Rattle.evidence.specs.Notices.{senders_of};
ghost use Rattle.pekdrav.specs.Evidence.{sixteen, payloads_in, told_of};

use evidence::{GROUPS, KEYS, Ring};
use pool::{POOL_WORDS, RECORD};
use statements::NOTICES;
use views::View;

// Where each word of an answer is: eight numbers, the candidates, the greatest history, the payloads of the certificates.
const CONFLICT: usize = 0;

const MANY: usize = 1;

const WISHED: usize = 2;

const COUNT: usize = 3;

const LENGTH: usize = 4;

const CERTIFIED: usize = 5;

const STORED: usize = 6;

const UNUSED: usize = 7;

const CANDIDATES: usize = 8;

const GREATEST: usize = CANDIDATES + View::LIMIT;

const PAYLOADS: usize = GREATEST + View::LIMIT;

const TOLD_WORDS: usize = PAYLOADS + NOTICES;

fn when(yes: bool, n: u64) -> u64
    ensures { result ≡ cond yes n 0 }
{
    if yes { n } else { 0 }
}

// The first `n` of the views, and 0 after the last, in sixteen words.
fn tell(out: &mut [u64; TOLD_WORDS], from: usize, views: &[u64; View::LIMIT], n: u64)
    requires { from ≤ 24 }
    ensures { out.new ≡ sets out.old from (sixteen (views_of views.now n)) }
{
    for i in 0..View::LIMIT {
        out[from + i] = when((i as u64) < n, views[i]);
    }
}

// The payloads of the certificates of the notices in the set, and 0 for the others. Only those in the set are visited: a ring of few notices takes few steps.
fn payloads_of(certified: u64, certs: &[u64; NOTICES]) -> [u64; NOTICES]
    ensures { result ≡ payloads_in certified certs.now }
{
    let mut payloads = [0u64; NOTICES];
    let mut j = statements::next_in(certified, 0);
    while j < NOTICES {
        payloads[j] = certs[j];
        j = statements::next_in(certified, j + 1);
    }
    payloads
}

// The same in sixty-four words.
fn tell_payloads(out: &mut [u64; TOLD_WORDS], certified: u64, certs: &[u64; NOTICES])
    ensures { out.new ≡ sets out.old 40 (payloads_in certified certs.now) }
{
    out[PAYLOADS..].copy_from_slice(&payloads_of(certified, certs));
}

// Tells the evidence of a record, in the ring of this initial view and of the notices of the first `count` senders: in words 0 to 7 whether there is a conflict, whether there
// are more than sixteen candidates, the wished view, how many candidates and how many views of the greatest history follow, which notices have a certificate and of which of
// them the payload is stored, as sets, and 0; from word 8 on the candidates, from 24 on the greatest history, from 40 on the payloads of the certificates. What is not told is 0:
// after a conflict every word but 0 and 2, with more than sixteen candidates word 3 and the candidates, the payload of a notice without a certificate, and the words after the last view.
// The votes are gathered in `keys` and `groups`, which may hold anything.
#[unsafe(no_mangle)]
pub extern "C" fn pekdrav_raw_record_evidence(
    ids: &[u16; RECORD],
    words: &[u64; POOL_WORDS],
    init: u64,
    count: u8,
    senders: &[u8; NOTICES],
    keys: &mut [u64; KEYS],
    groups: &mut [u64; GROUPS],
    out: &mut [u64; TOLD_WORDS],
)
    ensures { out.new ≡ told_of (ring_of_word init) (senders_of senders.now count) (record_in words.now ids.now) }
{
    let mut candidates = [0u64; View::LIMIT];
    let mut greatest = [0u64; View::LIMIT];
    let mut certs = [0u64; NOTICES];
    let ring = Ring {
        init,
        notices: count as usize,
    };
    let e = evidence::of_record(
        words,
        ids,
        ring,
        senders,
        keys,
        groups,
        &mut candidates,
        &mut greatest,
        &mut certs,
    );
    let agreed = !e.conflict;
    let certified = when(agreed, e.certified);
    let few = when(agreed & !e.many, e.count as u64);
    let length = when(agreed, e.length as u64);
    out[CONFLICT] = e.conflict as u64;
    out[MANY] = (agreed & e.many) as u64;
    out[WISHED] = e.wished;
    out[COUNT] = few;
    out[LENGTH] = length;
    out[CERTIFIED] = certified;
    out[STORED] = statements::common(certified, e.stored);
    out[UNUSED] = 0;
    tell(out, CANDIDATES, &candidates, few);
    tell(out, GREATEST, &greatest, length);
    tell_payloads(out, certified, &certs);
}

// Writes what a record shows from the start of `out`, in lines, and answers the text's length; 0, and `out` as
// it was, where `out` has fewer than 4096 bytes.
#[unsafe(no_mangle)]
pub extern "C" fn pekdrav_record_screen(
    ids: &[u16; RECORD],
    words: &[u64; POOL_WORDS],
    init: u64,
    count: u8,
    senders: &[u8; NOTICES],
    out: &mut [u8],
) -> usize
    ensures { ScreenShows (ring_of_word init) (senders_of senders.now count) (record_in words.now ids.now) out.old result out.new }
{
    let ring = Ring {
        init,
        notices: count as usize,
    };
    screen::shown(words, ids, ring, senders, out)
}
