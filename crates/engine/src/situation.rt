// What the rules look at, of a controller and its evidence.
ghost use Rattle.std.specs.Prelude.{◌≡◌, ◌≤◌, ◌<◌};
ghost use Rattle.protocol.specs.Lists.{all};
ghost use Rattle.views.specs.Held.{view_is, views_is};
ghost use Rattle.engine.specs.Situation.{not_above, leaves_at, Situated};

use crate::Controller;
use evidence::{Evidence, Ring};
use rules::Situation;
use views::{History, View};

// Whether no view of h is greater than t.
fn none_above(h: History, t: View) -> bool
    ensures { result ≡ all (not_above (view_is t)) (views_is h) }
{
    h.views[..h.count()].iter().all(|u| !t.below(*u))
}

// Whether the controller c asked to leave and the minute is inside a window.
fn may_leave(c: Controller, minute: u16) -> bool
    ensures { result ≡ leaves_at c minute }
{
    c.leaving && windows::is_open(&c.times, c.windows, minute)
}

// The situation of the controller c in its ring at a minute of the week, with the evidence e of its record. It reads a few fields alone, so that a compiler copies no whole controller for it.
pub fn of_controller(
    c: Controller,
    ring: Ring,
    e: Evidence,
    greatest: &[u64; View::LIMIT],
    minute: u16,
) -> Situation
    requires { (0 < e.length) × (e.length ≤ 16) }
    ensures { Situated c ring greatest.now e minute result }
{
    let t = View::of_word(greatest[e.length - 1]);
    let entered = c.entered.has(t);
    Situation {
        number: c.number,
        ring,
        delivered: c.delivered,
        joining: c.joining,
        minute,
        leaving: may_leave(c, minute),
        requested: c.requested,
        active: c.entered.count() > 0,
        entered,
        stands: entered & none_above(c.entered, t),
        left: t.has_left(c.number),
        top: t,
        shown: e,
    }
}
