// A statement goes into the pool and at the end of a record.
ghost use Rattle.std.specs.Prelude.{◌≤◌};
ghost use Rattle.statements.specs.Meaning.{stmt_of};
ghost use Rattle.engine.specs.Steps.{PlacedFor, KeptFor};

use pool::{CAPACITY, Full, POOL_WORDS, RECORD};
use statements::{BLOCK, Statement};

// The number of the statement in the pool; or there is no room in the record, or none in the pool, which lacks the statement.
fn place(
    words: &mut [u64; POOL_WORDS],
    ids: &[u16; RECORD],
    st: Statement,
    block: &[u64; BLOCK],
) -> Result<u16, Full>
    requires { st.history.len ≤ 16 }
    ensures { PlacedFor words.old ids.now (stmt_of st block.now) result words.new }
{
    if pool::record_length(ids) >= CAPACITY {
        return Err(Full);
    }
    pool::append(words, st, block)
}

// The same, and the number goes at the end of the record.
pub fn keep(
    ids: &mut [u16; RECORD],
    words: &mut [u64; POOL_WORDS],
    st: Statement,
    block: &[u64; BLOCK],
) -> Result<u16, Full>
    requires { st.history.len ≤ 16 }
    ensures { KeptFor words.old ids.old (stmt_of st block.now) result words.new ids.new }
{
    let n = place(words, ids, st, block)?;
    pool::record_push(ids, n);
    Ok(n)
}
