// Bindings, and how those that reports tell are merged.
ghost use Rattle.std.specs.Prelude.{◌≡◌, ◌≤◌};
ghost use Rattle.protocol.specs.Statement.{binding_of, group_of};
ghost use Rattle.protocol.specs.Turn.{merge};
ghost use Rattle.pool.specs.Pool.{stmt_at};
ghost use Rattle.statements.specs.Block.{binding_is};
ghost use Rattle.evidence.specs.Reports.{told_count};

use pool::POOL_WORDS;
use statements::{Binding, Kind};

// Of how many notices statement s tells: only a report tells of any.
pub fn told_count(words: &[u64; POOL_WORDS], s: u16) -> usize
    ensures { (result ≡ told_count words.now s) × (result ≤ 64) }
{
    if pool::kind(words, s) == Kind::Report as u64 {
        pool::groups(words, s)
    } else {
        0
    }
}

// The binding that statement s tells of notice j.
pub fn told(words: &[u64; POOL_WORDS], s: u16, j: usize) -> Binding
    ensures { binding_is result ≡ binding_of (group_of (stmt_at words.now s) j) }
{
    if told_count(words, s) <= j {
        return Binding::Unbound;
    }
    if statements::has(pool::barred(words, s), j) {
        return Binding::Barred;
    }
    if statements::has(pool::bound(words, s), j) {
        return Binding::Bound(pool::told_payload(words, s, j));
    }
    Binding::Unbound
}

// One payload m and the binding b.
fn with_payload(m: u64, b: Binding) -> Binding
    ensures { binding_is result ≡ merge (binding_is (Binding.Bound m)) (binding_is b) }
{
    match b {
        Binding::Unbound => Binding::Bound(m),
        Binding::Barred => Binding::Barred,
        Binding::Bound(n) if m == n => Binding::Bound(m),
        Binding::Bound(_) => Binding::Barred,
    }
}

// Both bindings.
pub fn both(a: Binding, b: Binding) -> Binding
    ensures { binding_is result ≡ merge (binding_is a) (binding_is b) }
{
    match a {
        Binding::Unbound => b,
        Binding::Barred => Binding::Barred,
        Binding::Bound(m) => with_payload(m, b),
    }
}
