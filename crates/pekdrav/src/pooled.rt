// A pool whose statements go in and come out by their text.
ghost use Rattle.pool.specs.Changes.{Cleared};
ghost use Rattle.pekdrav.specs.Pooled.{AppendedText, Texted};

use pool::{CAPACITY, POOL_WORDS};
use statements::BLOCK;

// What is answered for a statement that has no room, and for a line that is none.
const POOL_FULL: u16 = CAPACITY as u16;

const NO_STATEMENT: u16 = POOL_FULL + 1;

// The number of the statement that `line` is in a ring of so many notices, which goes to the end of the pool if it is not in it: its words and the number of
// statements are written, and no other. `POOL_FULL`, and the pool as it was, where it is full; `NO_STATEMENT`, and the pool as it was, where
// `line` is the text of no statement that keeps the field rules.
#[unsafe(no_mangle)]
pub extern "C" fn pekdrav_pool_append(
    words: &mut [u64; POOL_WORDS],
    line: &[u8],
    notices: usize,
) -> u16
    ensures { AppendedText notices line.now words.old result words.new }
{
    let mut block = [0u64; BLOCK];
    let Some(statement) = statements::read(line, notices, &mut block) else {
        return NO_STATEMENT;
    };
    pool::append(words, statement, &block).unwrap_or(POOL_FULL)
}

// An empty pool.
#[unsafe(no_mangle)]
pub extern "C" fn pekdrav_pool_clear(words: &mut [u64; POOL_WORDS])
    ensures { Cleared words.old words.new }
{
    pool::clear(words);
}

// Writes the text of statement n from the start of `out`, and answers its length; 0, and `out` as it was, where the pool has no such statement
// or `out` is too short.
#[unsafe(no_mangle)]
pub extern "C" fn pekdrav_pool_text(words: &[u64; POOL_WORDS], n: u16, out: &mut [u8]) -> usize
    ensures { Texted words.now n out.old result out.new }
{
    if n as usize >= pool::pool_len(words) {
        return 0;
    }
    let mut block = [0u64; BLOCK];
    let st = pool::get(words, n, &mut block);
    statements::write(st, &block, out)
}
