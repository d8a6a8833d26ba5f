// Which agreements seal their histories, by what is remembered of them.
ghost use Rattle.std.specs.Prelude.{◌≡◌, Bool, ℕ, ◌<◌};
ghost use Rattle.ranking.specs.Slots.{seal_mark, seal_byte};

use sealing::{MEMO, Verdict};
use tables::CAPACITY;

// A memory of verdicts that has a mark on each agreement that seals its history.
pub trait Marks {
    ghost seals: { Self → ℕ → Bool };

    fn seals(&self, a: usize) -> bool
        requires { a < 512 }
        ensures { result ≡ seals self.now a };
}

impl Marks for [Verdict; MEMO] {
    ghost seals = { seal_mark };

    fn seals(&self, a: usize) -> bool {
        self[CAPACITY + a].is_yes()
    }
}

impl Marks for [u8; MEMO] {
    ghost seals = { seal_byte };

    fn seals(&self, a: usize) -> bool {
        self[CAPACITY + a] == 1
    }
}
