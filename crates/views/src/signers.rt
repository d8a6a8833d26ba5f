// Sets of signers of a view, and the order in which views are written.
ghost use Rattle.std.specs.Prelude.{◌≡◌, not, ◌&&◌};
ghost use Rattle.protocol.specs.Sets.{bit, set_of};
ghost use Rattle.protocol.specs.View.{member};
ghost use Rattle.protocol.specs.Signers.{makes_quorum, written_before};
ghost use Rattle.views.specs.Sets.{Among};
ghost use Rattle.views.specs.View.{view_of};

use crate::{View, words};

// Whether u is written before v: who joined is written first.
pub fn written_before(u: u64, v: u64) -> bool
    ensures { result ≡ written_before (view_of u) (view_of v) }
{
    (words::low_half(u), words::high_half(u)) < (words::low_half(v), words::high_half(v))
}

// The members of v that are in the set.
pub fn members_among(v: u64, set: u32) -> u32
    ensures { Among (view_of v) set result }
{
    View::of_word(v).members() & set
}

// The members of v that are not.
pub fn members_without(v: u64, set: u32) -> u32
    ensures { result ≡ set_of 16 (λ k. member (view_of v) k && not (bit set k)) }
{
    let m = View::of_word(v).members();
    m - (m & set)
}

// Whether the set makes a quorum of v.
pub fn makes_quorum(v: u64, set: u32) -> bool
    ensures { result ≡ makes_quorum 16 (view_of v) set }
{
    let w = View::of_word(v);
    w.has_members() && (set & View::ALL).count_ones() >= w.quorum()
}
