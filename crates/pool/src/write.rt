// A whole statement, into the pool and out of it.
ghost use Rattle.std.specs.Prelude.{◌≡◌, map, ◌+◌, ◌≤◌, length};
ghost use Rattle.std.proofs.lemmas.List.Edits.{sets};
ghost use Rattle.statements.specs.Meaning.{first_views, stmt_of};
ghost use Rattle.views.specs.Held.{views_is};
ghost use Rattle.views.specs.View.{word_of};
ghost use Rattle.pool.specs.Pool.{told_from, pool_words, stmt_at};
ghost use Rattle.pool.specs.Steps.{head_word_of_held, Put};
ghost use Rattle.pool.specs.Changes.{Cleared};

use crate::{AT, COUNT, GROUPS, LAST, POOL_WORDS, VIEW, VIEWS, read, report, seek};
use statements::{BLOCK, Statement};
use views::{History, View};

// The views of h from word s on. The places after the last are left as they are.
fn put_views(words: &mut [u64; POOL_WORDS], s: usize, h: History)
    requires { s + 16 ≤ told_from }
    ensures { words.new ≡ sets words.old s (map word_of (views_is h)) }
{
    for p in 0..h.count() {
        words[s + p] = h.views[p].word();
    }
}

// The head of st. Of more than 16 views it counts 16.
fn head_word(st: Statement) -> u64
    ensures { result ≡ head_word_of_held st }
{
    let views = st.history.count() as u64;
    let groups = report::many(st.kind, st.groups) as u64;
    seek::head_of(st) + views * COUNT + groups * GROUPS
}

// Statement n is st with its block from now on. Where st has more than 16 views, only 16 are kept.
pub fn put(words: &mut [u64; POOL_WORDS], n: u16, st: Statement, block: &[u64; BLOCK])
    ensures { Put words.old words.new n st block.now }
{
    let s = read::slot(n);
    words[s] = head_word(st);
    words[s + AT] = st.at.word();
    words[s + VIEW] = st.view.word();
    put_views(words, VIEWS + s * View::LIMIT, st.history);
    report::put_groups(words, s, st.kind, st.groups, st.payload, block);
}

// An empty pool. The statements stay in memory, and count no more.
pub fn clear(words: &mut [u64; POOL_WORDS])
    ensures { Cleared words.old words.new }
{
    words[LAST] = 0;
}

// The views of statement n.
fn get_views(words: &[u64; POOL_WORDS], n: u16) -> History
    ensures { (first_views result.len result.views ≡ (stmt_at words.now n).views) × (result.len ≤ 16) }
{
    let len = read::count(words, n);
    let mut views = [View { joined: 0, left: 0 }; View::LIMIT];
    for p in 0..len {
        views[p] = View::of_word(read::nth(words, n, p));
    }
    History { views, len }
}

// Statement n. The block tells what it does, where it is a report.
pub fn get(words: &[u64; POOL_WORDS], n: u16, block: &mut [u64; BLOCK]) -> Statement
    ensures { (stmt_of result block.new ≡ stmt_at words.now n) × (result.history.len ≤ 16) }
{
    let groups = read::groups(words, n);
    report::get_told(words, n, groups, block);
    Statement {
        kind: read::kind(words, n) as u8,
        origin: read::origin(words, n) as u8,
        at: View::of_word(read::at(words, n)),
        view: View::of_word(read::view(words, n)),
        notice: read::notice(words, n) as u8,
        groups,
        payload: read::payload(words, n),
        history: get_views(words, n),
    }
}
