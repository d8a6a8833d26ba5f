// What a report tells of each notice, in lent words (specs/Block.antt). Every block means some list of groups.
ghost use Rattle.std.specs.Prelude.{◌≡◌, ◌<◌};
ghost use Rattle.protocol.specs.Statement.{binding_payload};
ghost use Rattle.statements.specs.Block.{block_word, binding_is, told_is, binding_at, group_at, TellsGroup, Nothing, is_bound, is_barred};

use crate::{BLOCK, Binding, NOTICES, Told, sets};

// The words that are sets, and where the payload and what is kept of notice 0 stand. Those of the others follow, two words for each.
const BOUND: usize = 0;

const BARRED: usize = 1;

const STORED: usize = 2;

const PAYLOAD: usize = 3;

const KEPT: usize = 4;

// The word at i.
fn word(block: &[u64; BLOCK], i: usize) -> u64
    requires { i < 131 }
    ensures { result ≡ block_word block.now i }
{
    block[i]
}

fn binding_at(block: &[u64; BLOCK], j: usize) -> Binding
    requires { j < 64 }
    ensures { binding_is result ≡ binding_at block.now j }
{
    if sets::has(word(block, BARRED), j) {
        return Binding::Barred;
    }
    if sets::has(word(block, BOUND), j) {
        return Binding::Bound(word(block, PAYLOAD + 2 * j));
    }
    Binding::Unbound
}

// What the block tells of notice j. Past the last notice it tells nothing.
pub fn told_at(block: &[u64; BLOCK], j: usize) -> Told
    ensures { told_is result ≡ group_at block.now j }
{
    if j >= NOTICES {
        return Told {
            binding: Binding::Unbound,
            stored: false,
            kept: 0,
        };
    }
    Told {
        binding: binding_at(block, j),
        stored: sets::has(word(block, STORED), j),
        kept: word(block, KEPT + 2 * j),
    }
}

impl Binding {
    fn is_bound(self) -> bool
        ensures { result ≡ is_bound self }
    {
        matches!(self, Binding::Bound(_))
    }

    fn is_barred(self) -> bool
        ensures { result ≡ is_barred self }
    {
        matches!(self, Binding::Barred)
    }
}

// The payload that is bound, or 0.
pub fn bound_payload(b: Binding) -> u64
    ensures { result ≡ binding_payload (binding_is b) }
{
    match b {
        Binding::Bound(m) => m,
        Binding::Unbound | Binding::Barred => 0,
    }
}

// From now on the block tells t of notice j, and of the others what it told. A number above 63 changes nothing.
pub fn tell(block: &mut [u64; BLOCK], j: usize, t: Told)
    ensures { TellsGroup block.old j t block.new }
{
    if j >= NOTICES {
        return;
    }
    let bound = sets::put_notice(word(block, BOUND), j, t.binding.is_bound());
    let barred = sets::put_notice(word(block, BARRED), j, t.binding.is_barred());
    let stored = sets::put_notice(word(block, STORED), j, t.stored);
    block[BOUND] = bound;
    block[BARRED] = barred;
    block[STORED] = stored;
    block[PAYLOAD + 2 * j] = bound_payload(t.binding);
    block[KEPT + 2 * j] = t.kept;
}

// From now on the block tells nothing. What stands past the sets is then not read.
pub fn clear(block: &mut [u64; BLOCK])
    ensures { Nothing block.new 0 }
{
    block[BOUND] = 0;
    block[BARRED] = 0;
    block[STORED] = 0;
}
