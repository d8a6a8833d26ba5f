// The bench: a schedule to its rows, and to a controller after its last line.
#![tactic(auto)]

mod lines;
mod row;
mod seat;
mod state;

pub use lines::{ROWS_MAX, after, run};
