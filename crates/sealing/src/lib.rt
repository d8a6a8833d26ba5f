// Which views are candidates and which histories are sealed, from the tables of what quorums agreed to.
#![tactic(auto)]

mod cycle;
mod judge;
mod rows;
mod verdict;

pub use cycle::MEMO;
pub use judge::{is_sealed_top, verdicts};
pub use verdict::Verdict;
