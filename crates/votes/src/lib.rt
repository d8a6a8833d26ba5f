// The votes of a record, each counted until its quorum is complete.
#![tactic(auto)]

mod chosen;
mod groups;
mod keys;
mod question;
mod wish;

pub use chosen::tabulate;
pub use groups::{gather, has_votes};
use pool::CAPACITY;
pub use question::{Question, count, signers};
pub use wish::wished_by;

// The tables of what quorums chose and agreed to.
pub const CHOICES: usize = 0;

pub const AGREEMENTS: usize = 1;

// The most groups: no two votes of a record need be alike.
pub const GROUPS: usize = CAPACITY;

// How many groups there are, and the view that the record wishes: both in one pass.
#[derive(Clone, Copy)]
pub struct Gathered {
    pub groups: usize,
    pub wished: u64,
}

// How many rows the two tables have.
#[derive(Clone, Copy)]
pub struct Counts {
    pub choices: usize,
    pub agreements: usize,
}
