// The rows of a key.
ghost use Rattle.std.specs.Prelude.{◌≡◌, Bool, ℕ, ◌/◌, ◌%◌, ◌≤◌, ◌<◌};
ghost use Rattle.tables.specs.Index.{key_at, slot_of, Leads, Tells, Finds, Indexed, RowAdded, Latest};

use crate::rows;
use crate::rows::{KEYS, ROWS, SLOTS};

// What the halves of a word are below.
const HALF: u64 = 4294967296;

// What each half is multiplied by.
const LOW_FACTOR: u64 = 2654435769;

const HIGH_FACTOR: u64 = 668265263;

// Where the bits of a mix start that are taken.
const HIGH_BITS: u64 = 16777216;

// The slot of a mix: its high bits, which multiplication mixes best.
pub fn slot_from(mix: u64) -> usize
    ensures { (result ≡ mix / 16777216 % 256) × (result < 256) }
{
    (mix / HIGH_BITS) as usize % SLOTS
}

// The slot of a word.
fn slot(w: u64) -> usize
    ensures { (result ≡ slot_of w) × (result < 256) }
{
    let low = w % HALF;
    let high = w / HALF;
    slot_from(low * LOW_FACTOR + high * HIGH_FACTOR)
}

// Puts a row behind those that the table has.
pub fn add(keys: &mut [u64; KEYS], rows: &mut [u16; ROWS], t: usize, row: usize, w: u64, x: u16)
    requires { (t < 2) × (row < 512) }
    ensures { RowAdded keys.old rows.old t row w x keys.new rows.new }
{
    rows::set_key(keys, t, row, w);
    rows::set_number(rows, t, row, x);
    rows::link(rows, t, slot(w), row);
}

// The first row that `has` holds of, from `from` on down its slot.
pub fn find<F: Fn(usize) -> bool>(
    rows: &[u16; ROWS],
    t: usize,
    from: Option<usize>,
    has: F,
) -> Option<usize>
    requires table { t < 2 }
    requires linked { Leads rows.now t from }
    requires callable { (row : ℕ) → row < 512 → F.pre has row }
    ensures { (test : ℕ → Bool) → Tells (F.post has) test → Finds rows.now t from test result }
{
    let mut at = from;
    while let Some(row) = at {
        if has(row) {
            return Some(row);
        }
        at = rows::older(rows, t, row);
    }
    None
}

// The newest row with the key w.
pub fn first(keys: &[u64; KEYS], rows: &[u16; ROWS], t: usize, w: u64) -> Option<usize>
    requires { (t < 2) × ((n : ℕ) × Indexed keys.now rows.now t n) }
    ensures { (n : ℕ) → Indexed keys.now rows.now t n → Latest keys.now t w n result }
{
    let newest = rows::newest(rows, t, slot(w));
    find(rows, t, newest, |row| rows::key(keys, t, row) == w)
}

// The newest row before this one that has its key.
pub fn next(keys: &[u64; KEYS], rows: &[u16; ROWS], t: usize, row: usize) -> Option<usize>
    requires { (t < 2) × ((n : ℕ) × Indexed keys.now rows.now t n × (row < n)) }
    ensures { Latest keys.now t (key_at keys.now t row) row result }
{
    let w = rows::key(keys, t, row);
    let before = rows::older(rows, t, row);
    find(rows, t, before, |row| rows::key(keys, t, row) == w)
}
