// What the views of one statement are, and whether two statements have the same.
ghost use Rattle.std.specs.Prelude.{◌≡◌, ◌<◌, map, length};
ghost use Rattle.protocol.specs.Lists.{any, all};
ghost use Rattle.protocol.specs.View.{same_view, has_members};
ghost use Rattle.protocol.specs.History.{same_views, is_history, top};
ghost use Rattle.protocol.specs.Statement.{is_rising};
ghost use Rattle.views.specs.View.{view_of, view_in, ring_of_word};
ghost use Rattle.pool.specs.Pool.{stmt_at};

use crate::{POOL_WORDS, read};

// Whether the word w of a statement is the view t.
pub fn is_view(w: u64, t: u64) -> bool
    ensures { result ≡ same_view (view_in w) (view_of t) }
{
    views::narrow(w) == t
}

// Whether statements i and j name the same views.
pub fn same_views(words: &[u64; POOL_WORDS], i: u16, j: u16) -> bool
    ensures { result ≡ same_views (stmt_at words.now i).views (stmt_at words.now j).views }
{
    let (a, b) = (read::view_words(words, i), read::view_words(words, j));
    a.len() == b.len() && a.iter().zip(b).all(|(u, v)| is_view(*u, views::narrow(*v)))
}

// The top of the views of statement n.
pub fn top_view(words: &[u64; POOL_WORDS], n: u16, init: u64) -> u64
    ensures { view_of result ≡ top (ring_of_word init) (stmt_at words.now n).views }
{
    let c = read::count(words, n);
    if c == 0 {
        return init;
    }
    read::nth(words, n, c - 1)
}

// Whether t is one of the views of statement n.
pub fn has_view(words: &[u64; POOL_WORDS], n: u16, t: u64) -> bool
    ensures { result ≡ any (same_view (view_of t)) (stmt_at words.now n).views }
{
    read::view_words(words, n).iter().any(|w| is_view(*w, t))
}

// Whether these views, of which there are some, rise strictly.
fn rise(listed: &[u64]) -> bool
    requires { 0 < length listed.now }
    ensures { result ≡ is_rising 16 (map view_in listed.now) }
{
    listed
        .windows(2)
        .all(|pair| views::below_view(pair[0], pair[1]))
}

// Whether each of these views has members.
fn have_members(listed: &[u64]) -> bool
    ensures { result ≡ all (has_members 16) (map view_in listed.now) }
{
    listed.iter().all(|v| views::has_members(*v))
}

// Whether the views of statement n are a history.
pub fn is_history(words: &[u64; POOL_WORDS], n: u16, init: u64) -> bool
    ensures { result ≡ is_history (ring_of_word init) (stmt_at words.now n).views }
{
    let listed = read::view_words(words, n);
    !listed.is_empty() && is_view(listed[0], init) && have_members(listed) && rise(listed)
}
