// Who signed: one pass over a record in lent memory.
ghost use Rattle.std.specs.Prelude.{◌≡◌};
ghost use Rattle.protocol.specs.Evidence.{signs};
ghost use Rattle.views.specs.Sets.{IsSet};
ghost use Rattle.views.specs.View.{view_of};
ghost use Rattle.pool.specs.Pool.{record_in, stmt_at};
ghost use Rattle.pekdrav.specs.Scan.{is_at};

use pool::{POOL_WORDS, RECORD};

// What is above the words of all views of the sixteen controllers.
const WORDS: u64 = 281474976710656;

// Whether statement n is of this kind and at this view. One comparison tells both: of two, the first would often be guessed wrong.
fn is_at(words: &[u64; POOL_WORDS], n: u16, kind: u8, at: u64) -> bool
    ensures { result ≡ is_at kind (view_of at) (stmt_at words.now n) }
{
    let k = pool::kind(words, n);
    let t = pool::at(words, n);
    at < WORDS && k * WORDS + t == kind as u64 * WORDS + at
}

// The set of those who signed a statement of this kind at this view, bit k for controller k, in a record.
#[unsafe(no_mangle)]
pub extern "C" fn pekdrav_record_signers(
    ids: &[u16; RECORD],
    words: &[u64; POOL_WORDS],
    kind: u8,
    at: u64,
) -> u32
    ensures { IsSet result (signs (is_at kind (view_of at)) (record_in words.now ids.now)) }
{
    let end = pool::record_length(ids);
    let mut seen = 0;
    for i in 0..end {
        let n = ids[i];
        let hit = is_at(words, n, kind, at);
        // Most are passed over, so who signed is read only where it counts.
        if !hit {
            continue;
        }
        seen = views::note(seen, hit, pool::origin(words, n));
    }
    seen
}
