// The view that a record wishes, from those who sign joins and leaves.
ghost use Rattle.std.specs.Prelude.{◌≡◌, List, ◌/◌, ◌%◌};
ghost use Rattle.protocol.specs.Statement.{Stmt, is_kind};
ghost use Rattle.protocol.specs.Evidence.{signs, wished};
ghost use Rattle.views.specs.Steps.{Noted};
ghost use Rattle.views.specs.Sets.{IsSet};
ghost use Rattle.views.specs.View.{view_of, ring_of_word};
ghost use Rattle.pool.specs.Pool.{stmt_at, record_in};

use pool::{POOL_WORDS, RECORD};
use statements::Kind;
use views::View;

// Who asked to join, in the low half, and to leave, in the high, with the origin of statement s too where that is such. Most are not: one test tells.
pub fn note_asked(words: &[u64; POOL_WORDS], s: u16, asked: u64) -> u64
    ensures { Noted (asked % 4294967296) (is_kind 1 (stmt_at words.now s)) (stmt_at words.now s).origin (result % 4294967296) × Noted (asked / 4294967296 % 4294967296) (is_kind 2 (stmt_at words.now s)) (stmt_at words.now s).origin (result / 4294967296 % 4294967296) }
{
    let k = pool::kind(words, s);
    if k > Kind::Leave as u64 {
        return asked;
    }
    let o = pool::origin(words, s);
    let joins = views::note(views::low_half(asked), k == Kind::Join as u64, o);
    let leaves = views::note(views::high_half(asked), k == Kind::Leave as u64, o);
    views::of_halves(joins, leaves)
}

// The initial view, with every join origin joined and every leave origin that is joined marked left.
pub fn wished_view(init: u64, asked: u64) -> u64
    ensures { (X : List Stmt) → IsSet (asked % 4294967296) (signs (is_kind 1) X) → IsSet (asked / 4294967296 % 4294967296) (signs (is_kind 2) X) → view_of result ≡ wished (ring_of_word init) X }
{
    let first = View::of_word(init);
    let joined = views::union(first.joined_set(), views::low_half(asked));
    let left = views::union(first.left_set(), joined & views::high_half(asked));
    View { joined, left }.word()
}

// The view that a record wishes. `groups::gather` finds it too, where there are votes to gather in the same pass.
pub fn wished_by(words: &[u64; POOL_WORDS], ids: &[u16; RECORD], init: u64) -> u64
    ensures { view_of result ≡ wished (ring_of_word init) (record_in words.now ids.now) }
{
    let end = pool::record_length(ids);
    let mut asked = 0u64;
    for s in &ids[..end] {
        asked = note_asked(words, *s, asked);
    }
    wished_view(init, asked)
}
