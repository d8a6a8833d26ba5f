// What a report tells of each notice, in the pool and in a block.
ghost use Rattle.std.specs.Prelude.{◌≡◌, cond, ◌+◌, ◌<◌, ◌≤◌, length, get_or};
ghost use Rattle.std.proofs.lemmas.List.Edits.{sets};
ghost use Rattle.protocol.specs.Lists.{when, list_of};
ghost use Rattle.protocol.specs.Sets.{bit};
ghost use Rattle.protocol.specs.Statement.{binding_number, binding_payload, kept_payload, same_group, same_groups};
ghost use Rattle.statements.specs.Block.{binding_is, told_is, block_word, bound_or_barred, group_at, groups_of};
ghost use Rattle.pool.specs.Pool.{pool_words, told_bound, told_barred, told_payload, told_at, stmt_at};
ghost use Rattle.pool.specs.Changes.{told_words, groups_in};
ghost use Rattle.pool.specs.Steps.{groups_many, first_bits, bit_without, SaysAlike};

use crate::{BARRED, BOUND, PAIRS, PAYLOAD, POOL_WORDS, STORED, TOLD, read};
use statements::{BLOCK, Binding, Kind, NOTICES, Told};

// ---- what the pool tells

// The binding that report n tells of notice j.
fn binding(words: &[u64; POOL_WORDS], n: u16, j: usize) -> Binding
    requires { j < 64 }
    ensures { binding_is result ≡ bound_or_barred (bit (told_bound words.now n) j) (bit (told_barred words.now n) j) (told_payload words.now n j) }
{
    if statements::has(read::barred(words, n), j) {
        Binding::Barred
    } else if statements::has(read::bound(words, n), j) {
        Binding::Bound(read::told_payload(words, n, j))
    } else {
        Binding::Unbound
    }
}

// What report n tells of notice j.
pub fn told(words: &[u64; POOL_WORDS], n: u16, j: usize) -> Told
    requires { j < 64 }
    ensures { told_is result ≡ told_at words.now n j }
{
    Told {
        binding: binding(words, n, j),
        stored: statements::has(read::stored(words, n), j),
        kept: read::told_kept(words, n, j),
    }
}

// ---- comparing

// How a statement has the binding.
fn binding_number(b: Binding) -> u64
    ensures { result ≡ binding_number (binding_is b) }
{
    match b {
        Binding::Unbound => 0,
        Binding::Bound(_) => 1,
        Binding::Barred => 2,
    }
}

// The payload that is kept, or 0.
fn kept_payload(stored: bool, kept: u64) -> u64
    ensures { result ≡ kept_payload (when stored kept) }
{
    if stored { kept } else { 0 }
}

// Whether the same is told.
fn same_told(a: Told, b: Told) -> bool
    ensures { result ≡ same_group (told_is a) (told_is b) }
{
    binding_number(a.binding) == binding_number(b.binding)
        && statements::bound_payload(a.binding) == statements::bound_payload(b.binding)
        && a.stored == b.stored
        && kept_payload(a.stored, a.kept) == kept_payload(b.stored, b.kept)
}

// A word of the block.
fn word(block: &[u64; BLOCK], i: usize) -> u64
    requires { i < 131 }
    ensures { result ≡ block_word block.now i }
{
    raw(block, i)
}

fn raw(block: &[u64; BLOCK], i: usize) -> u64
    requires { i < 131 }
    ensures { result ≡ get_or block.now i 0 }
{
    block[i]
}

// Whether report n tells of the first c notices what the block does, notice by notice.
fn same_each(words: &[u64; POOL_WORDS], n: u16, c: usize, block: &[u64; BLOCK]) -> bool
    requires { c ≤ 64 }
    ensures { result ≡ same_groups (list_of c (group_at block.now)) (list_of c (told_at words.now n)) }
{
    for j in 0..c {
        if !same_told(statements::told_at(block, j), told(words, n, j)) {
            return false;
        }
    }
    true
}

// Whether both bar the same and neither tells of anything bound or stored, which is so of most reports that are alike.
fn same_bars(words: &[u64; POOL_WORDS], n: u16, block: &[u64; BLOCK]) -> bool
    ensures { SaysAlike result block.now words.now n }
{
    let bound = word(block, 0) | read::bound(words, n);
    let stored = word(block, 2) | read::stored(words, n);
    word(block, 1) == read::barred(words, n) && (bound | stored) == 0
}

// Whether report n tells of the first c notices what the block does.
fn same_report(words: &[u64; POOL_WORDS], n: u16, c: usize, block: &[u64; BLOCK]) -> bool
    requires { c ≤ 64 }
    ensures { result ≡ same_groups (list_of c (group_at block.now)) (list_of c (told_at words.now n)) }
{
    same_bars(words, n, block) || same_each(words, n, c, block)
}

// How many groups a statement of this kind has. A number of them above 64 counts as 64.
pub fn many(kind: u8, groups: usize) -> usize
    ensures { (result ≡ groups_many kind groups) × (result ≤ 64) }
{
    if kind == Kind::Report as u8 {
        groups.min(NOTICES)
    } else {
        1
    }
}

// Whether statement n has just these groups, where it is a report, or else this payload.
pub fn same_groups(
    words: &[u64; POOL_WORDS],
    n: u16,
    groups: usize,
    payload: u64,
    block: &[u64; BLOCK],
) -> bool
    ensures { result ≡ same_groups (groups_of (stmt_at words.now n).kind groups payload block.now) (stmt_at words.now n).groups }
{
    if read::kind(words, n) != Kind::Report as u64 {
        return payload == read::payload(words, n);
    }
    let c = groups.min(NOTICES);
    c == read::groups(words, n) && same_report(words, n, c, block)
}

// ---- writing

// The first c bits of a set.
fn first_bits(x: u64, c: usize) -> u64
    requires { c ≤ 64 }
    ensures { result ≡ first_bits c (bit x) }
{
    if c >= NOTICES {
        return x;
    }
    x % (1u64 << c)
}

// Those of them that are not in another set.
fn bits_without(x: u64, y: u64, c: usize) -> u64
    requires { c ≤ 64 }
    ensures { result ≡ first_bits c (bit_without x y) }
{
    first_bits(statements::except(x, y), c)
}

// What the block tells of the first c notices, payload and kept of each, from word s on.
fn put_pairs(words: &mut [u64; POOL_WORDS], s: usize, c: usize, block: &[u64; BLOCK])
    requires room { s + 128 < pool_words }
    requires few { c ≤ 64 }
    ensures { words.new ≡ sets words.old s (told_words (list_of c (group_at block.now))) }
{
    for j in 0..c {
        let t = statements::told_at(block, j);
        words[s + 2 * j] = statements::bound_payload(t.binding);
        words[s + 2 * j + 1] = kept_payload(t.stored, t.kept);
    }
}

// The groups of a statement of this kind, at place s of the columns. The block is read only where it is a report.
pub fn put_groups(
    words: &mut [u64; POOL_WORDS],
    s: usize,
    kind: u8,
    groups: usize,
    payload: u64,
    block: &[u64; BLOCK],
)
    requires { s ≤ 511 }
    ensures { words.new ≡ groups_in words.old s kind (groups_of kind groups payload block.now) }
{
    if kind != Kind::Report as u8 {
        words[s + PAYLOAD] = payload;
        return;
    }
    let c = many(kind, groups);
    words[s + BOUND] = bits_without(word(block, 0), word(block, 1), c);
    words[s + BARRED] = first_bits(word(block, 1), c);
    words[s + STORED] = first_bits(word(block, 2), c);
    put_pairs(words, TOLD + s * PAIRS, c, block);
}

// ---- reading

// From now on the block tells of the first c notices what report n does.
pub fn get_told(words: &[u64; POOL_WORDS], n: u16, c: usize, block: &mut [u64; BLOCK])
    requires { c ≤ 64 }
    ensures { list_of c (group_at block.new) ≡ list_of c (told_at words.now n) }
{
    for j in 0..c {
        statements::tell(block, j, told(words, n, j));
    }
}
