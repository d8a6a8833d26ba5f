// The rules of a turn, each by itself: what it has a controller do, from what the controller is and what its record shows.
#![tactic(auto)]

mod made;
mod membership;
mod notice;
mod requests;
mod signed;

use evidence::{Evidence, Ring};
pub use made::statement;
pub use membership::{rule1, rule2, rule3, rule4};
pub use notice::{rule5, rule6, rule7};
pub use requests::{rule8, rule9, rule10};
pub use signed::own_of;
use views::View;

// What a rule has the controller do; of a notice, its number and a payload. An action holds no statement, since most turns have none: `statement` makes the one that is signed.
// With which bindings a view is entered is found where that is done.
#[derive(Clone, Copy)]
pub enum Action {
    Report(View),
    Enter(View),
    AgreeView,
    AgreeHistory,
    Ack(u8, u64),
    Store(u8, u64),
    Deliver(u8, u64),
    Join,
    Leave,
    Prepare(u8, u64),
}

// What the rules look at: the controller's own fields, and what its record shows. What it shows as views or by notice is lent beside it.
#[derive(Clone, Copy)]
pub struct Situation {
    pub number: u8,
    pub ring: Ring,
    // Sets of notices: those delivered, and those of which a send was requested.
    pub delivered: u64,
    pub requested: u64,
    pub joining: bool,
    // The minute of the week; and whether a leave was requested and that minute is inside a window.
    pub minute: u16,
    pub leaving: bool,
    // It has entered some view; the top; the top and nothing greater.
    pub active: bool,
    pub entered: bool,
    pub stands: bool,
    // It is in the top's left set.
    pub left: bool,
    pub top: View,
    pub shown: Evidence,
}
