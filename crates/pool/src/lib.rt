// Statements in lent memory. Every word of it can be read: specs/Pool.antt says what each stands for.
#![tactic(auto)]

mod compare;
mod listed;
mod read;
mod report;
mod seek;
mod write;

pub use compare::{has_view, is_history, same_views, top_view};
pub use listed::{Record, record_clear, record_holds, record_length, record_push};
pub use read::{
    at, barred, bound, count, groups, head, kind, notice, nth, origin, payload, pool_len, stored,
    told_kept, told_payload, view,
};
pub use report::told;
pub use seek::{append, find, same_at};
use statements::NOTICES;
use views::View;
pub use write::{clear, get};

// The most statements of a pool, and of a record.
pub const CAPACITY: usize = 512;

// The highest number of a statement. One above it counts as this.
const HIGHEST: usize = CAPACITY - 1;

// Where the columns after the heads start: a word of each statement. The payload is that of every kind but a report, and the last three are the sets of what a report tells.
const AT: usize = CAPACITY;

const VIEW: usize = 2 * CAPACITY;

const PAYLOAD: usize = 3 * CAPACITY;

const BOUND: usize = 4 * CAPACITY;

const BARRED: usize = 5 * CAPACITY;

const STORED: usize = 6 * CAPACITY;

// Where the views start: a history's most views of each statement.
const VIEWS: usize = 7 * CAPACITY;

// Where it starts what is told of each notice: a payload and what is kept, for the most notices of each statement.
const TOLD: usize = VIEWS + CAPACITY * View::LIMIT;

const PAIRS: usize = 2 * NOTICES;

// Where the number of statements is.
const LAST: usize = TOLD + CAPACITY * PAIRS;

pub const POOL_WORDS: usize = LAST + 1;

// A record in memory: the numbers of its statements, and after them how many count. A count above the most counts as the most.
pub const RECORD: usize = CAPACITY + 1;

// A field of a head is a byte.
const BYTE: u64 = 256;

// Where the fields of a head stand: the kind is its lowest byte.
const ORIGIN: u64 = 256;

const NOTICE: u64 = 65536;

const COUNT: u64 = 16777216;

const GROUPS: u64 = 4294967296;

// Kind, origin and notice in one number are below this.
const KEY: u64 = NOTICE * BYTE;

// A pool with the most statements has no room for one more.
#[derive(Clone, Copy, Debug, PartialEq, Eq)]
pub struct Full;
