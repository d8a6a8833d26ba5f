// Two tables in lent memory, each of at most 512 rows with an index: specs/Index.antt says what each number and each word stands for.
// A table is 0 or 1, and a row is told by its number.
#![tactic(auto)]

mod rows;
mod search;

pub use rows::{CAPACITY, KEYS, ROWS, clear, key, link, newest, number, older, set_key};
pub use search::{add, find, first, next, slot_from};
