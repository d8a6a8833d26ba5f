// Sets of notices: bit j of a word stands for notice j.
ghost use Rattle.std.specs.Prelude.{◌≡◌, true};
ghost use Rattle.protocol.specs.Sets.{bit};
ghost use Rattle.statements.specs.Sets.{PutBit, Common, Union, Except, Next};

use crate::NOTICES;

// Whether the set has notice j.
pub fn has(set: u64, j: usize) -> bool
    ensures { result ≡ bit set j }
{
    j < NOTICES && (set >> j) % 2 == 1
}

// The set, with notice j in it or not. A number above 63 changes nothing.
pub fn put_notice(set: u64, j: usize, yes: bool) -> u64
    ensures { PutBit set j yes result }
{
    if j >= NOTICES {
        return set;
    }
    let one = 1u64 << j;
    if yes { set | one } else { set & !one }
}

// The set with notice j in it.
pub fn with_notice(set: u64, j: usize) -> u64
    ensures { PutBit set j true result }
{
    put_notice(set, j, true)
}

// What both sets have.
pub fn common(a: u64, b: u64) -> u64
    ensures { Common a b result }
{
    a & b
}

// What either set has.
pub fn either(a: u64, b: u64) -> u64
    ensures { Union a b result }
{
    a | b
}

// What a has and b has not.
pub fn except(a: u64, b: u64) -> u64
    ensures { Except a b result }
{
    a & !b
}

// The least notice of the set from j on, or 64 where there is none.
pub fn next_in(set: u64, j: usize) -> usize
    ensures { Next set j result }
{
    if j >= NOTICES {
        return NOTICES;
    }
    (j + (set >> j).trailing_zeros() as usize).min(NOTICES)
}
