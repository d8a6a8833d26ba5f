// A controller in memory that a host lends: read before a call, written after it, and the answer told in numbers. Its record is lent to the call itself.
#![tactic(auto)]

mod add;
mod answers;
mod held;

pub use add::add_text;
pub use answers::{VALUES, finish, tell};
pub use held::{FIELDS, is_ready, load, notice_count, store};
