// Where a statement is in the pool, and one more at its end.
ghost use Rattle.std.specs.Prelude.{◌≡◌, ◌<◌};
ghost use Rattle.protocol.specs.View.{same_view};
ghost use Rattle.protocol.specs.History.{same_views};
ghost use Rattle.views.specs.View.{view_of};
ghost use Rattle.protocol.specs.Statement.{same_stmt};
ghost use Rattle.statements.specs.Meaning.{first_views, stmt_of};
ghost use Rattle.pool.specs.Pool.{stmt_at};
ghost use Rattle.views.specs.Options.{option_of};
ghost use Rattle.pool.specs.Steps.{head_of_held, is_other, Sought};
ghost use Rattle.pool.specs.Changes.{pool_number, Appended};

use crate::{CAPACITY, Full, LAST, NOTICE, ORIGIN, POOL_WORDS, compare, read, report, write};
use statements::{BLOCK, Statement};
use views::History;

// Whether h has just the views of statement n.
fn same_history(words: &[u64; POOL_WORDS], n: u16, h: &History) -> bool
    ensures { result ≡ same_views (first_views h.now.len h.now.views) (stmt_at words.now n).views }
{
    let listed = read::view_words(words, n);
    h.len == listed.len()
        && h.views[..h.len]
            .iter()
            .zip(listed)
            .all(|(v, w)| compare::is_view(*w, v.word()))
}

// Kind, origin and notice of st in one number. No block tells them.
pub fn head_of(st: Statement) -> u64
    ensures { (result ≡ head_of_held st) × (result < 16777216) }
{
    u64::from(st.kind) + u64::from(st.origin) * ORIGIN + u64::from(st.notice) * NOTICE
}

// Whether statement n has another kind, origin or notice than key, or another at than t. By this a search passes over most: the three are compared as one number, since the answer to the kind alone would often be guessed wrong.
pub fn is_other(words: &[u64; POOL_WORDS], n: u16, key: u64, t: u64) -> bool
    ensures { result ≡ is_other (stmt_at words.now n) key t }
{
    (read::head(words, n) != key) | (read::at(words, n) != t)
}

// Whether t is the view that statement n names.
fn names(words: &[u64; POOL_WORDS], n: u16, t: u64) -> bool
    ensures { result ≡ same_view (stmt_at words.now n).view (view_of t) }
{
    read::view(words, n) == t
}

// Whether statement n is st with its block, where key, at and view are the numbers of its parts. Most others differ in the first two; liars differ in views alone, so that these are asked before the groups. Inlined, since a search that calls it for each statement takes half as long again.
#[inline(always)]
pub fn is_sought(
    words: &[u64; POOL_WORDS],
    n: u16,
    st: &Statement,
    key: u64,
    at: u64,
    view: u64,
    block: &[u64; BLOCK],
) -> bool
    ensures { Sought st.now key at view → result ≡ same_stmt (stmt_of st.now block.now) (stmt_at words.now n) }
{
    !is_other(words, n, key, at)
        && names(words, n, view)
        && same_history(words, n, &st.history)
        && report::same_groups(words, n, st.groups, st.payload, block)
}

// Whether statement n is st with its block.
pub fn same_at(words: &[u64; POOL_WORDS], n: u16, st: Statement, block: &[u64; BLOCK]) -> bool
    ensures { result ≡ same_stmt (stmt_of st block.now) (stmt_at words.now n) }
{
    is_sought(
        words,
        n,
        &st,
        head_of(st),
        st.at.word(),
        st.view.word(),
        block,
    )
}

// The number of st with its block in the pool.
pub fn find(words: &[u64; POOL_WORDS], st: Statement, block: &[u64; BLOCK]) -> Option<u16>
    ensures { result ≡ option_of (pool_number words.now (stmt_of st block.now)) }
{
    let key = head_of(st);
    let at = st.at.word();
    let view = st.view.word();
    (0..read::pool_len(words) as u16).find(|n| is_sought(words, *n, &st, key, at, view, block))
}

// The number of st, which goes to the end of the pool if it is not in it. Nothing changes where the pool is full.
pub fn append(
    words: &mut [u64; POOL_WORDS],
    st: Statement,
    block: &[u64; BLOCK],
) -> Result<u16, Full>
    ensures { Appended words.old words.new st block.now result }
{
    if let Some(i) = find(words, st, block) {
        return Ok(i);
    }
    let n = read::pool_len(words);
    if n >= CAPACITY {
        return Err(Full);
    }
    write::put(words, n as u16, st, block);
    words[LAST] = n as u64 + 1;
    Ok(n as u16)
}
