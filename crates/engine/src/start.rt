// Setup.
ghost use Rattle.std.specs.Prelude.{◌≡◌, ◌≤◌};
ghost use Rattle.protocol.specs.Controller.{not_set_up};
ghost use Rattle.protocol.specs.Call.{started, setup, setup_allowed};
ghost use Rattle.views.specs.Held.{views_is};
ghost use Rattle.engine.specs.Meaning.{controller_is, came_to, initial_is, first_senders, setup_is};
ghost use Rattle.engine.specs.Promise.{Starts};
ghost use Rattle.engine.specs.Steps.{are_numbers};

use crate::{Answer, Controller, Outcome, Refusal, Setup};
use evidence::Notice;
use pool::RECORD;
use statements::{Binding, NOTICES};
use views::{History, View};
use windows::WINDOWS;

// The views that controller `number` has entered when the ring starts: the initial one, if it is a member.
fn entered_first(init: View, number: u8) -> History
    ensures { views_is result ≡ initial_is init number }
{
    let none = History::new();
    if init.has_member(number) {
        none.push(init)
    } else {
        none
    }
}

// Whether the first `count` senders are numbers of controllers.
fn are_numbers(senders: &[u8; NOTICES], count: usize) -> bool
    requires { count ≤ 64 }
    ensures { result ≡ are_numbers (first_senders senders.now count) }
{
    senders[..count].iter().all(|k| *k < View::WIDTH)
}

// Whether a ring may start so, whatever its windows.
pub fn is_allowed(number: u8, s: Setup, senders: &[u8; NOTICES]) -> bool
    ensures { result ≡ setup_allowed number s.members (first_senders senders.now s.notices) }
{
    if s.members == 0 || number >= View::WIDTH || s.notices == 0 || s.notices > NOTICES {
        return false;
    }
    are_numbers(senders, s.notices)
}

// A controller that is set up in a ring.
fn start(number: u8, s: Setup, senders: &[u8; NOTICES], windows: &[u64; WINDOWS]) -> Controller
    requires { (s.notices ≤ 64) × (s.windows ≤ 8) }
    ensures { controller_is result ≡ started number (setup_is s senders.now windows.now) }
{
    let init = View {
        joined: s.members as u32,
        left: 0,
    };
    Controller {
        ready: true,
        number,
        init,
        notices: s.notices,
        senders: *senders,
        entered: entered_first(init, number),
        windows: s.windows,
        times: *windows,
        ..Controller::new()
    }
}

impl Controller {
    // A controller before setup: of one notice, as the report that it could read has one group.
    pub fn new() -> Controller
        ensures { controller_is result ≡ not_set_up }
    {
        Controller {
            ready: false,
            number: 0,
            init: View { joined: 0, left: 0 },
            notices: 1,
            senders: [0u8; NOTICES],
            entered: History::new(),
            held: [Notice {
                binding: Binding::Unbound,
            }; NOTICES],
            sends: [0u64; NOTICES],
            delivered: 0,
            requested: 0,
            joining: false,
            leaving: false,
            windows: 0,
            times: [0u64; WINDOWS],
        }
    }

    // A setup that is taken empties the record. Of senders and windows the first are asked, as many as it names.
    pub fn setup(
        self,
        ids: &mut [u16; RECORD],
        number: u8,
        s: Setup,
        senders: &[u8; NOTICES],
        windows: &[u64; WINDOWS],
    ) -> Result<Outcome, Refusal>
        ensures { Starts (λ X. setup (controller_is self) X number (setup_is s senders.now windows.now)) ids.old self (came_to self result) ids.new }
    {
        if self.ready {
            return Err(Refusal::BadSetup);
        }
        if !is_allowed(number, s, senders) {
            return Err(Refusal::BadSetup);
        }
        if !windows::are_allowed(windows, s.windows) {
            return Err(Refusal::BadWindow);
        }
        pool::record_clear(ids);
        Ok(Outcome {
            answer: Answer::Taken,
            controller: start(number, s, senders, windows),
        })
    }
}
