// The candidates in order, and the greatest sealed history, from the verdicts on what quorums agreed to.
#![tactic(auto)]

mod candidates;
mod histories;
mod marks;

pub use candidates::rank;
pub use histories::{climb, greatest_history};
pub use marks::Marks;
// How many candidates are listed, or that two of them are incomparable; `many` where there are more than sixteen.
#[derive(Clone, Copy)]
pub struct Ranked {
    pub conflict: bool,
    pub many: bool,
    pub count: usize,
}

// That two sealed histories are apart; or the set of the places, in the greatest, of the views that are skipped, and how long it is.
#[derive(Clone, Copy)]
pub struct Summit {
    pub conflict: bool,
    pub skipped: u32,
    pub length: usize,
}
