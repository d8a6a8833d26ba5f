// What the senders prepared. The list of it is a table with an index by notice, so that a question about a notice reads its prepares alone.
ghost use Rattle.std.specs.Prelude.{◌≡◌, ◌<◌, min};
ghost use Rattle.protocol.specs.Evidence.{prepares, is_prepared};
ghost use Rattle.pool.specs.Pool.{stmt_at, record_in};
ghost use Rattle.evidence.specs.Notices.{senders_of};
ghost use Rattle.evidence.specs.Shown.{prepares_it, prepares_one, listed, twofold, PrepareAdded, Linked, PreparedList};

use crate::notices;
use pool::{POOL_WORDS, RECORD};
use statements::{Kind, NOTICES};
use tables::{KEYS, ROWS};

// Of the table, the payloads are the first keys and the notices the second. Its index is the first.
const PAYLOADS: usize = 0;

const OF_NOTICES: usize = 1;

const INDEX: usize = 0;

// Whether statement s is a prepare of notice j by its sender.
fn is_prepare_of(
    words: &[u64; POOL_WORDS],
    s: u16,
    count: usize,
    senders: &[u8; NOTICES],
    j: usize,
) -> bool
    requires { j < min count 64 }
    ensures { result ≡ prepares (senders_of senders.now count) j (stmt_at words.now s) }
{
    pool::kind(words, s) == Kind::Prepare as u64
        && pool::origin(words, s) == u64::from(senders[j])
        && notices::notice_of(words, s) == j
}

// Whether statement s is a prepare of a notice of the ring by its sender.
fn is_prepare(words: &[u64; POOL_WORDS], s: u16, count: usize, senders: &[u8; NOTICES]) -> bool
    ensures { result ≡ prepares_one (senders_of senders.now count) (stmt_at words.now s) }
{
    let j = notices::notice_of(words, s);
    j < count.min(NOTICES) && is_prepare_of(words, s, count, senders, j)
}

// Whether statement s is a prepare of the payload m of notice j by its sender.
#[tactic(auto, unfolding(crate::specs::Shown::prepares_it))]
fn prepares_it(
    words: &[u64; POOL_WORDS],
    s: u16,
    count: usize,
    senders: &[u8; NOTICES],
    j: usize,
    m: u64,
) -> bool
    requires { j < min count 64 }
    ensures { result ≡ prepares_it (senders_of senders.now count) j m (stmt_at words.now s) }
{
    is_prepare_of(words, s, count, senders, j) && pool::payload(words, s) == m
}

// Whether the sender of notice j prepared m. Where this is asked of many payloads, the list below answers faster.
pub fn is_prepared(
    words: &[u64; POOL_WORDS],
    ids: &[u16; RECORD],
    count: usize,
    senders: &[u8; NOTICES],
    j: usize,
    m: u64,
) -> bool
    requires { j < min count 64 }
    ensures { result ≡ is_prepared (senders_of senders.now count) (record_in words.now ids.now) j m }
{
    ids[..pool::record_length(ids)]
        .iter()
        .any(|s| prepares_it(words, *s, count, senders, j, m))
}

// Puts the prepare s behind the n that are listed.
fn add(words: &[u64; POOL_WORDS], s: u16, n: usize, keys: &mut [u64; KEYS], rows: &mut [u16; ROWS])
    requires { n < 512 }
    ensures { PrepareAdded (stmt_at words.now s) n keys.old rows.old keys.new rows.new }
{
    let j = notices::notice_of(words, s);
    tables::set_key(keys, PAYLOADS, n, pool::payload(words, s));
    tables::set_key(keys, OF_NOTICES, n, j as u64);
    tables::link(rows, INDEX, j, n);
}

// Lists what the senders prepared, and answers how many rows that is. What the memory held before does not matter.
pub fn list(
    words: &[u64; POOL_WORDS],
    ids: &[u16; RECORD],
    count: usize,
    senders: &[u8; NOTICES],
    keys: &mut [u64; KEYS],
    rows: &mut [u16; ROWS],
) -> usize
    ensures { PreparedList (senders_of senders.now count) (record_in words.now ids.now) keys.new rows.new result }
{
    tables::clear(rows, INDEX);
    let mut n = 0;
    for s in &ids[..pool::record_length(ids)] {
        if is_prepare(words, *s, count, senders) {
            add(words, *s, n, keys, rows);
            n += 1;
        }
    }
    n
}

// Whether one of the n rows is of notice j and has the payload m.
pub fn is_listed(keys: &[u64; KEYS], rows: &[u16; ROWS], n: usize, j: usize, m: u64) -> bool
    requires { (j < 256) × Linked keys.now rows.now n }
    ensures { result ≡ listed keys.now n j m }
{
    let newest = tables::newest(rows, INDEX, j);
    tables::find(
        rows,
        INDEX,
        newest,
        |row| tables::key(keys, PAYLOADS, row) == m,
    )
    .is_some()
}

// Whether two of the n rows are of notice j and have different payloads.
pub fn is_twofold(keys: &[u64; KEYS], rows: &[u16; ROWS], n: usize, j: usize) -> bool
    requires { (j < 256) × Linked keys.now rows.now n }
    ensures { result ≡ twofold keys.now n j }
{
    let Some(newest) = tables::newest(rows, INDEX, j) else {
        return false;
    };
    let m = tables::key(keys, PAYLOADS, newest);
    tables::find(
        rows,
        INDEX,
        Some(newest),
        |row| tables::key(keys, PAYLOADS, row) != m,
    )
    .is_some()
}
