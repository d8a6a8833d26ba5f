// Records: lists of pool numbers.
ghost use Rattle.std.specs.Prelude.{map, take, ◌≡◌, ◌≤◌, length};
ghost use Rattle.protocol.specs.Lists.{any};
ghost use Rattle.protocol.specs.Statement.{same_stmt};
ghost use Rattle.statements.specs.Meaning.{stmt_of};
ghost use Rattle.pool.specs.Pool.{stmt_at, record_len, record_in};
ghost use Rattle.pool.specs.Entries.{entries_of};
ghost use Rattle.pool.specs.Changes.{PushedTo, Emptied};

use crate::{CAPACITY, POOL_WORDS, RECORD, read, seek};
use statements::{BLOCK, Statement};

// A record with the pool that it is over, both in lent memory.
#[derive(Clone, Copy)]
pub struct Record<'a> {
    pub words: &'a [u64; POOL_WORDS],
    pub ids: &'a [u16; RECORD],
}

impl Record<'_> {
    // The numbers of its statements in the pool.
    pub fn numbers(&self) -> &[u16]
        ensures are { result.now ≡ take (record_len self.now.ids.now) self.now.ids.now }
        ensures means { map (stmt_at self.now.words.now) result.now ≡ entries_of self.now }
        ensures few { length result.now ≤ 512 }
    {
        let ids = self.ids;
        &ids[..record_length(ids)]
    }

    // Whether it holds st with its block.
    pub fn holds(&self, st: Statement, block: &[u64; BLOCK]) -> bool
        ensures { result ≡ any (same_stmt (stmt_of st block.now)) (entries_of self.now) }
    {
        let words = self.words;
        let key = seek::head_of(st);
        let at = st.at.word();
        let view = st.view.word();
        self.numbers()
            .iter()
            .any(|n| seek::is_sought(words, *n, &st, key, at, view, block))
    }
}

// How many statements a record in memory has.
pub fn record_length(ids: &[u16; RECORD]) -> usize
    ensures { (result ≡ record_len ids.now) × (result ≤ 512) × (length ids.now ≡ 513) }
{
    usize::from(ids[CAPACITY]).min(CAPACITY)
}

// Whether a record in memory holds st with its block.
pub fn record_holds(
    words: &[u64; POOL_WORDS],
    ids: &[u16; RECORD],
    st: Statement,
    block: &[u64; BLOCK],
) -> bool
    ensures { result ≡ any (same_stmt (stmt_of st block.now)) (record_in words.now ids.now) }
{
    Record { words, ids }.holds(st, block)
}

// The number id at the end of a record in memory. A full record stays as it is.
pub fn record_push(ids: &mut [u16; RECORD], id: u16)
    ensures { PushedTo ids.old id ids.new }
{
    let n = record_length(ids);
    if n >= CAPACITY {
        return;
    }
    ids[n] = id;
    ids[CAPACITY] = n as u16 + 1;
}

// An empty record.
pub fn record_clear(ids: &mut [u16; RECORD])
    ensures { Emptied ids.old ids.new }
{
    ids[CAPACITY] = 0;
}
