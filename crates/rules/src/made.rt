// The statement that an action signs.
ghost use Rattle.std.specs.Prelude.{◌≡◌, ◌≤◌};
ghost use Rattle.views.specs.Held.{views_is};
ghost use Rattle.views.specs.View.{views_in};
ghost use Rattle.rules.specs.Actions.{Makes};

use crate::{Action, Situation};
use statements::Statement;
use views::{History, View};

// The views of the first n words.
pub fn history_of(list: &[u64; View::LIMIT], n: usize) -> History
    requires { n ≤ 16 }
    ensures { (views_is result ≡ views_in list.now n) × (result.len ≤ 16) }
{
    let mut views = [View { joined: 0, left: 0 }; View::LIMIT];
    for i in 0..n {
        views[i] = View::of_word(list[i]);
    }
    History { views, len: n }
}

// The report on u. What it tells of each notice stands in the block that goes with it.
fn report(candidates: &[u64; View::LIMIT], s: Situation, u: View) -> Statement
    requires { s.shown.count ≤ 16 }
    ensures { Makes s (views_in candidates.now s.shown.count) (Action.Report u) result }
{
    let h = history_of(candidates, s.shown.count);
    let w = View::of_word(s.shown.wished);
    statements::report(s.number, u, w, s.ring.notices, h)
}

// The statement that an action signs. Of an action that signs none it means nothing.
pub fn statement(candidates: &[u64; View::LIMIT], s: Situation, a: Action) -> Statement
    requires { s.shown.count ≤ 16 }
    ensures { Makes s (views_in candidates.now s.shown.count) a result }
{
    let k = s.number;
    let t = s.top;
    match a {
        Action::Report(u) => report(candidates, s, u),
        Action::AgreeView => statements::agree_view(k, t, View::of_word(s.shown.wished)),
        Action::AgreeHistory => {
            statements::agree_history(k, t, history_of(candidates, s.shown.count))
        }
        Action::Ack(j, m) => statements::ack(k, t, j, m),
        Action::Store(j, m) => statements::store(k, t, j, m),
        Action::Leave => statements::leave(k),
        Action::Prepare(j, m) => statements::prepare(k, j, m),
        Action::Join | Action::Enter(_) | Action::Deliver(_, _) => statements::join(k),
    }
}
