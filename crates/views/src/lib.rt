// Views, histories and quorums. A history's unused places may differ from one correct program to another: only its first len views count.
#![tactic(auto)]

ghost use Rattle.std.specs.Prelude.{◌≡◌, [], ◌∷◌, ◌++◌, ◌+◌, ◌<◌, ◌≤◌, min, take, ◌==◌};
ghost use Rattle.std.proofs.Common.{rules};
ghost use Rattle.std.specs.Cmp.Rules.{comparing};
ghost use Rattle.std.specs.Ordering.{on, eq_of_both};
ghost use Rattle.protocol.specs.Sets.{bit, set_of};
ghost use Rattle.protocol.specs.Lists.{any, all, list_of};
ghost use Rattle.protocol.specs.View.{same_view, member, quorum, is_view, member_count, has_members, below};
ghost use Rattle.protocol.specs.Statement.{is_rising};
ghost use Rattle.protocol.specs.Turn.{entered_after};
ghost use Rattle.views.specs.View.{view_of, view_in};
ghost use Rattle.views.specs.Held.{view_is, held_at, views_is};

mod signers;
mod tally;
mod words;

pub use signers::{makes_quorum, members_among, members_without, written_before};
pub use tally::{Count, is_complete, own_of, place_of, sign, unsigned};
pub use words::{
    below_view, has_members, high_half, low_half, narrow, note, of_halves, size_view, union,
    within_view,
};

// Who joined and who left: bit k of each stands for controller k. Bits from the width on stand for none and are not read.
#[derive(Clone, Copy)]
pub struct View {
    pub joined: u32,
    pub left: u32,
}

// The first `len` views count; a len above the limit counts as the limit.
#[derive(Clone, Copy)]
pub struct History {
    pub views: [View; View::LIMIT],
    pub len: usize,
}

impl View {
    // Controllers are numbered below this.
    pub const WIDTH: u8 = 16;

    // The set of all of them.
    pub const ALL: u32 = 65535;

    // A history has at most this many views.
    pub const LIMIT: usize = 16;

    // The view in one word.
    pub fn word(self) -> u64
        ensures { view_of result ≡ view_is self }
    {
        words::narrow(words::of_halves(self.joined, self.left))
    }

    // The view of a word.
    pub fn of_word(w: u64) -> View
        ensures { view_is result ≡ view_in w }
    {
        View {
            joined: words::low_half(w),
            left: words::high_half(w),
        }
    }

    pub fn joined_set(self) -> u32
        ensures { (result ≡ (view_is self).joined) × (result < 65536) }
    {
        self.joined & View::ALL
    }

    pub fn left_set(self) -> u32
        ensures { (result ≡ (view_is self).left) × (result < 65536) }
    {
        self.left & View::ALL
    }

    // Who joined and has not left.
    pub fn members(self) -> u32
        ensures { result ≡ set_of 16 (member (view_is self)) }
    {
        let joined = self.joined_set();
        joined - (joined & self.left_set())
    }

    // How many members there are.
    pub fn count(self) -> u32
        ensures { (result ≡ member_count 16 (view_is self)) × (result ≤ 16) }
    {
        self.members().count_ones()
    }

    // How many of the members make a quorum.
    pub fn quorum(self) -> u32
        ensures { result ≡ quorum (member_count 16 (view_is self)) }
    {
        let n = self.count();
        n - n.saturating_sub(1) / 3
    }

    pub fn has_members(self) -> bool
        ensures { result ≡ has_members 16 (view_is self) }
    {
        self.count() > 0
    }

    // Whether the left set lies within the joined.
    pub fn is_view(self) -> bool
        ensures { result ≡ is_view 16 (view_is self) }
    {
        let left = self.left_set();
        (left & self.joined_set()) == left
    }

    pub fn has_member(self, k: u8) -> bool
        ensures { result ≡ member (view_is self) k }
    {
        words::has(self.members(), k)
    }

    // Whether controller k is in the left set.
    pub fn has_left(self, k: u8) -> bool
        ensures { result ≡ bit (view_is self).left k }
    {
        words::has(self.left_set(), k)
    }

    // Strictly within.
    pub fn below(self, v: View) -> bool
        ensures { result ≡ below 16 (view_is self) (view_is v) }
    {
        words::below_view(self.word(), v.word())
    }
}

// Two views are equal if the same controllers joined and left: bits that stand for none are not read.
impl PartialEq for View {
    ghost eq = { eq_of_both (on (λ v. (view_is v).joined) ◌==◌) (on (λ v. (view_is v).left) ◌==◌) };

    ghost laws = { Prim.search (comparing, rules) };

    fn eq(&self, other: &View) -> bool {
        self.word() == other.word()
    }
}

impl History {
    pub fn new() -> History
        ensures { (views_is result ≡ []) × (result.len ≡ 0) }
    {
        History {
            views: [View { joined: 0, left: 0 }; View::LIMIT],
            len: 0,
        }
    }

    // How many views there are.
    pub fn count(self) -> usize
        ensures { (result ≡ min self.len 16) × (result ≤ 16) }
    {
        self.len.min(View::LIMIT)
    }

    // The views that count.
    fn counted(&self) -> &[View]
        ensures { result.now ≡ take (min self.now.len 16) self.now.views }
    {
        &self.views[..self.count()]
    }

    // The first `at` views, and v after them.
    fn cut(self, at: usize, v: View) -> History
        requires { at < 16 }
        ensures { (views_is result ≡ list_of at (held_at self.views) ++ (view_is v ∷ [])) × (result.len ≡ at + 1) }
    {
        let mut views = self.views;
        views[at] = v;
        History { views, len: at + 1 }
    }

    // The views and v after them. Where there are 16 already, v takes the place of the last.
    pub fn push(self, v: View) -> History
        ensures { (views_is result ≡ entered_after (view_is v) (views_is self)) × (result.len ≤ 16) }
    {
        self.cut(self.count().min(View::LIMIT - 1), v)
    }

    pub fn has(self, v: View) -> bool
        ensures { result ≡ any (same_view (view_is v)) (views_is self) }
    {
        self.counted().contains(&v)
    }

    // Whether there are views and they rise strictly.
    pub fn rising(self) -> bool
        ensures { result ≡ is_rising 16 (views_is self) }
    {
        let views = self.counted();
        !views.is_empty() && views.windows(2).all(|pair| pair[0].below(pair[1]))
    }

    // Whether each view has its left set within the joined.
    pub fn each_is_view(self) -> bool
        ensures { result ≡ all (is_view 16) (views_is self) }
    {
        self.counted().iter().all(|v| v.is_view())
    }

    // Whether each view has members.
    pub fn each_has_members(self) -> bool
        ensures { result ≡ all (has_members 16) (views_is self) }
    {
        self.counted().iter().all(|v| v.has_members())
    }
}
