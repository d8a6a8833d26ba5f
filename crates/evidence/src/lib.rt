// What a record shows, once a turn: the candidates, the greatest sealed history, the certificates, and which reports count.
#![tactic(auto)]

mod binding;
mod certificates;
mod merging;
mod notices;
mod prepares;
mod remaining;
mod reports;
mod signers;
mod summary;

pub use certificates::complete_after;
pub use merging::merged;
pub use remaining::needed;
pub use reports::{count_reports, reported, reporters};
pub use signers::{ack_set, acked_by, stored_by};
use statements::Binding;
pub use summary::of_record;

// The lengths of the two arrays that a record's votes are gathered in. They are lent, since an array that is declared is cleared, and here any words serve.
pub const KEYS: usize = tables::KEYS;

pub const GROUPS: usize = votes::GROUPS;

// What of a ring never changes: its initial view, as a word, and how many notices it has. Who sends each of them is lent beside it.
#[derive(Clone, Copy)]
pub struct Ring {
    pub init: u64,
    pub notices: usize,
}

// What a controller holds of a notice.
#[derive(Clone, Copy)]
pub struct Notice {
    pub binding: Binding,
}

// What a record shows, beside two lists of views as words and the payloads of the certificates: wished; whether there is a conflict; whether there are more than
// sixteen candidates, and else how many of the list of candidates count; how many of that of the greatest history count, and, as a set of its places, which of these views
// are skipped; as sets of notices, which have a certificate, and of which its payload is stored; and how many groups of acks and stores by quorums of sealed tops are left
// in the memory in which the votes were gathered.
#[derive(Clone, Copy)]
pub struct Evidence {
    pub conflict: bool,
    pub many: bool,
    pub backed: u16,
    pub skipped: u32,
    pub wished: u64,
    pub count: usize,
    pub length: usize,
    pub certified: u64,
    pub stored: u64,
}
