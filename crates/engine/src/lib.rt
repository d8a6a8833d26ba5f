// The engine of one controller: setup, requests, additions and turns, each a value in and a value out, over a record and a pool that are lent.
#![tactic(auto)]

ghost use Rattle.std.specs.Prelude.{◌≡◌};
ghost use Rattle.protocol.specs.Controller.{refusal_number};
ghost use Rattle.engine.specs.Meaning.{refusal_is};
ghost use Rattle.engine.specs.declared.Refusal.TheVariants as refused;

mod add;
mod calls;
mod keep;
mod perform;
mod situation;
mod start;
mod turn;

pub use add::add_statement;
pub use calls::is_notice;
use evidence::Notice;
pub use situation::of_controller;
pub use start::is_allowed;
use statements::NOTICES;
pub use turn::ring_of;
use views::{History, View};
use windows::WINDOWS;

// Of notice j there are the sender, the binding, whether it was delivered, and the payload to send where that was requested: bits and places j.
#[derive(Clone, Copy)]
pub struct Controller {
    pub ready: bool,
    pub number: u8,
    pub init: View,
    // How many notices the setup named.
    pub notices: usize,
    pub senders: [u8; NOTICES],
    pub entered: History,
    pub held: [Notice; NOTICES],
    pub sends: [u64; NOTICES],
    pub delivered: u64,
    pub requested: u64,
    pub joining: bool,
    pub leaving: bool,
    // How many service windows the setup named, and when they are.
    pub windows: usize,
    pub times: [u64; WINDOWS],
}

// What a setup names in numbers: the initial members, and how many notices and windows there are. Senders and windows are lent beside it.
#[derive(Clone, Copy)]
pub struct Setup {
    pub members: u16,
    pub notices: usize,
    pub windows: usize,
}

// Why a call is refused, by its number in the table of refusals. The controller is then as it was.
#[derive(Clone, Copy, Debug, PartialEq, Eq)]
pub enum Refusal {
    BadSetup = 1,
    BadStatement = 2,
    Repeated = 3,
    Full = 4,
    BadRequest = 5,
    ManyCandidates = 6,
    Conflict = 7,
    OutOfPlace = 8,
    UnknownNotice = 9,
    BadWindow = 10,
    BadMinute = 11,
}

// A record or a pool has no room for one more statement.
impl From<pool::Full> for Refusal {
    ghost from_gives = { λ _ refusal. refusal ≡ refused.Full };

    fn from(_full: pool::Full) -> Refusal {
        Refusal::Full
    }
}

// What a call answers that is done. A signed statement is answered by its number in the pool, a delivery by the notice, its payload and the set of those behind its store quorum, bit k for
// controller k.
#[derive(Clone, Copy)]
pub enum Answer {
    Taken,
    Signed(u16),
    Entered(View),
    Delivered(u8, u64, u32),
    Left,
    Quiet,
}

// What a call that is done answers, and the controller after it.
#[derive(Clone, Copy)]
pub struct Outcome {
    pub answer: Answer,
    pub controller: Controller,
}

// A refusal's number in the table of refusals.
pub fn refusal_number(r: Refusal) -> u64
    ensures { result ≡ refusal_number (refusal_is r) }
{
    r as u64
}
