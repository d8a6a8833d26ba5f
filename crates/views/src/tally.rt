// Counting a quorum of a view while its members sign, one after the other. Who is no member, or signed before, changes nothing; nor does anybody once the quorum is complete.
//
// A tally is a word: 10 bits are the place of the statement that was counted last, the next 6 how many members are missing for a quorum, the next 32 the members that have not
// signed. The high 16 bits are its owner's.
ghost use Rattle.std.specs.Prelude.{◌≡◌, false, ◌<◌, eqb};
ghost use Rattle.views.specs.View.{view_of};
ghost use Rattle.views.specs.Held.{view_is};
ghost use Rattle.views.specs.Tally.{place_in, missing_in, own_in, Needed, Tallied, Signed};

use crate::View;

// A place is below this, and where the number of the missing stands.
const PLACE: u64 = 1024;

// It is below this.
const MISSING: u64 = 64;

// Where the members that have not signed stand.
const WAITING: u64 = PLACE * MISSING;

// Where the owner's bits stand.
const OWN: u64 = 281474976710656;

// Whether a quorum signed, and how many statements of a record were read to tell: all without a quorum, else those up to the one that completes it.
#[derive(Clone, Copy)]
pub struct Count {
    pub reached: bool,
    pub read: usize,
}

// How many are missing at first: a quorum. In a view without members one always is, so that it never has one.
fn needed(v: View) -> u32
    ensures { Needed (view_is v) result }
{
    v.quorum().max(1)
}

// Nobody of t has signed.
pub fn unsigned(t: u64, place: usize, own: u64) -> u64
    requires { (place < 1024) × (own < 65536) }
    ensures { Tallied (view_of t) (λ k. false) result × (place_in result ≡ place) × (own_in result ≡ own) }
{
    let v = View::of_word(t);
    place as u64 + needed(v) as u64 * PLACE + v.members() as u64 * WAITING + own * OWN
}

pub fn place_of(x: u64) -> usize
    ensures { result ≡ place_in x }
{
    (x % PLACE) as usize
}

pub fn own_of(x: u64) -> u64
    ensures { result ≡ own_in x }
{
    x / OWN
}

// Whether the quorum is complete.
pub fn is_complete(x: u64) -> bool
    ensures { result ≡ eqb (missing_in x) 0 }
{
    x / PLACE % MISSING == 0
}

// The statement at this place is signed by controller o. What changes is computed before the tests, so that no branch is guessed wrong where a quorum is complete.
pub fn sign(x: u64, o: u64, place: usize) -> u64
    requires { place < 1024 }
    ensures { Signed x o place result }
{
    if o >= View::WIDTH as u64 {
        return x;
    }
    let bit = x & (WAITING << o);
    let y = x - bit - x % PLACE + place as u64;
    if bit == 0 {
        return x;
    }
    if is_complete(x) {
        return x;
    }
    y - PLACE
}
