// Sets and views in one word. A set is a word of 32 bits; a view has who joined in the low 32 bits and who left in the high. Tests of views look at the controllers below the width alone.
ghost use Rattle.std.specs.Prelude.{◌≡◌, ◌/◌, ◌%◌, ◌≤◌, ◌<◌};
ghost use Rattle.protocol.specs.Sets.{bit};
ghost use Rattle.protocol.specs.View.{has_members, within, below, size};
ghost use Rattle.views.specs.Steps.{Noted, Joined};
ghost use Rattle.views.specs.View.{view_of, view_in};

use crate::View;

// The high half of a word counts by this.
const HALF: u64 = 4294967296;

// All controllers in both sets of a view.
const BOTH: u64 = View::ALL as u64 * (HALF + 1);

// The low half of a word: who joined.
pub fn low_half(w: u64) -> u32
    ensures { result ≡ w % 4294967296 }
{
    (w % HALF) as u32
}

// The high half: who left.
pub fn high_half(w: u64) -> u32
    ensures { result ≡ w / 4294967296 % 4294967296 }
{
    (w / HALF % HALF) as u32
}

// The word of its two halves.
pub fn of_halves(low: u32, high: u32) -> u64
    ensures { (result % 4294967296 ≡ low) × (result / 4294967296 % 4294967296 ≡ high) }
{
    low as u64 + high as u64 * HALF
}

// The view w without the bits of its sets that stand for no controller.
pub fn narrow(w: u64) -> u64
    ensures { view_of result ≡ view_in w }
{
    w & BOTH
}

// Whether controller k is in the set.
pub fn has(set: u32, k: u8) -> bool
    requires { set < 65536 }
    ensures { result ≡ bit set k }
{
    k < View::WIDTH && (set >> k) % 2 == 1
}

// `seen`, and o too where `yes` is true.
pub fn note(seen: u32, yes: bool, o: u64) -> u32
    ensures { Noted seen yes o result }
{
    if yes && o < View::WIDTH as u64 {
        seen | (1u32 << o)
    } else {
        seen
    }
}

// What a has and what b has.
pub fn union(a: u32, b: u32) -> u32
    ensures { Joined a b result }
{
    a | b
}

// Whether v has members.
pub fn has_members(v: u64) -> bool
    ensures { result ≡ has_members 16 (view_of v) }
{
    View::of_word(v).has_members()
}

// Whether u lies within v.
pub fn within_view(u: u64, v: u64) -> bool
    ensures { result ≡ within 16 (view_of u) (view_of v) }
{
    let a = narrow(u);
    let b = narrow(v);
    (a & b) == a
}

// Whether u lies strictly within v.
pub fn below_view(u: u64, v: u64) -> bool
    ensures { result ≡ below 16 (view_of u) (view_of v) }
{
    within_view(u, v) && narrow(u) != narrow(v)
}

// How many joined in v and how many left.
pub fn size_view(v: u64) -> u32
    ensures { (result ≡ size 16 (view_of v)) × (result ≤ 32) }
{
    narrow(v).count_ones()
}
