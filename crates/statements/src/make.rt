// One statement of each kind, as its signer makes it.
ghost use Rattle.std.specs.Prelude.{◌≡◌, false, [], eqb, ◌≤◌};
ghost use Rattle.protocol.specs.Statement as says;
ghost use Rattle.views.specs.Held.{view_is, views_is};
ghost use Rattle.statements.specs.Kind.{kind_number};
ghost use Rattle.statements.specs.Made.{Made, Reports, plain};

use crate::{Kind, Statement, UNUSED};
use views::{History, View};

// The history with its length. A length above 16 counts as 16.
fn shortened(h: History) -> History
    ensures { (views_is result ≡ views_is h) × (result.len ≤ 16) }
{
    History {
        len: h.count(),
        ..h
    }
}

// A statement of any kind but a report.
fn plain(kind: Kind, k: u8, at: View, view: View, notice: u8, payload: u64, h: History) -> Statement
    requires { (eqb (kind_number kind) 5 ≡ false) × (h.len ≤ 16) }
    ensures { Made (plain (kind_number kind) k (view_is at) (view_is view) notice payload (views_is h)) result }
{
    Statement {
        kind: kind as u8,
        origin: k,
        at,
        view,
        notice,
        groups: 1,
        payload,
        history: h,
    }
}

// Names no history either.
fn brief(kind: Kind, k: u8, at: View, view: View, notice: u8, payload: u64) -> Statement
    requires { eqb (kind_number kind) 5 ≡ false }
    ensures { Made (plain (kind_number kind) k (view_is at) (view_is view) notice payload []) result }
{
    plain(kind, k, at, view, notice, payload, History::new())
}

pub fn join(k: u8) -> Statement
    ensures { Made (says.join k) result }
{
    brief(Kind::Join, k, UNUSED, UNUSED, 0, 0)
}

pub fn leave(k: u8) -> Statement
    ensures { Made (says.leave k) result }
{
    brief(Kind::Leave, k, UNUSED, UNUSED, 0, 0)
}

pub fn agree_view(k: u8, t: View, v: View) -> Statement
    ensures { Made (says.agree_view k (view_is t) (view_is v)) result }
{
    brief(Kind::AgreeView, k, t, v, 0, 0)
}

pub fn agree_history(k: u8, t: View, h: History) -> Statement
    ensures { Made (says.agree_history k (view_is t) (views_is h)) result }
{
    plain(Kind::AgreeHistory, k, t, UNUSED, 0, 0, shortened(h))
}

// Of notice i.
pub fn prepare(k: u8, i: u8, m: u64) -> Statement
    ensures { Made (says.prepare k i m) result }
{
    brief(Kind::Prepare, k, UNUSED, UNUSED, i, m)
}

pub fn ack(k: u8, t: View, i: u8, m: u64) -> Statement
    ensures { Made (says.ack k (view_is t) i m) result }
{
    brief(Kind::Ack, k, t, UNUSED, i, m)
}

pub fn store(k: u8, t: View, i: u8, m: u64) -> Statement
    ensures { Made (says.store k (view_is t) i m) result }
{
    brief(Kind::Store, k, t, UNUSED, i, m)
}

// The report that tells what a block does of the first n notices. The block goes with the statement.
pub fn report(k: u8, t: View, w: View, n: usize, h: History) -> Statement
    ensures { Reports k (view_is t) (view_is w) n (views_is h) result }
{
    Statement {
        kind: Kind::Report as u8,
        origin: k,
        at: t,
        view: w,
        notice: 0,
        groups: n,
        payload: 0,
        history: shortened(h),
    }
}
