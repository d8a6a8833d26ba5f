// The notices of a ring, by their numbers.
ghost use Rattle.std.specs.Prelude.{◌≡◌, ◌<◌};
ghost use Rattle.pool.specs.Pool.{stmt_at};

use pool::POOL_WORDS;

// The notice that statement s is of.
pub fn notice_of(words: &[u64; POOL_WORDS], s: u16) -> usize
    ensures { (result ≡ (stmt_at words.now s).notice) × (result < 256) }
{
    pool::notice(words, s) as usize
}
