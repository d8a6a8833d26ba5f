// Rules 8 to 10: what was requested.
// A rule that is lent `own` is lent the controller's own statements, since it asks for no others. The block may be any: only a report is asked for with its block.
ghost use Rattle.std.specs.Prelude.{◌≡◌, [], ◌∷◌, min};
ghost use Rattle.protocol.specs.Turn as turn;
ghost use Rattle.pool.specs.Pool.{record_in};
ghost use Rattle.rules.specs.Rules.{may_leave, own_statements, rule9_at, Does};
ghost use Rattle.rules.specs.Rules as lent;

use crate::{Action, Situation, signed};
use pool::{POOL_WORDS, RECORD};
use statements::{BLOCK, Kind, NOTICES};

// Rule 8: join.
pub fn rule8(
    words: &[u64; POOL_WORDS],
    own: &[u16; RECORD],
    block: &[u64; BLOCK],
    s: Situation,
) -> Option<Action>
    ensures { Does (own_statements (record_in words.now own.now) ∷ []) s turn.rule8 result }
{
    if s.joining && !pool::record_holds(words, own, statements::join(s.number), block) {
        return Some(Action::Join);
    }
    None
}

// Whether a leave need not wait for a delivery.
fn may_leave(words: &[u64; POOL_WORDS], own: &[u16; RECORD], s: Situation) -> bool
    ensures { result ≡ may_leave (min s.ring.notices 64) s.delivered s.shown.certified s.number (record_in words.now own.now) }
{
    let prepared = signed::notices(words, own, s.number, Kind::Prepare);
    let due = statements::either(s.shown.certified, prepared);
    let waiting = statements::except(due, s.delivered);
    signed::least(waiting, s.ring.notices).is_none()
}

// Rule 9: leave, inside a window and after delivery of each notice of which there is something to deliver.
pub fn rule9(
    words: &[u64; POOL_WORDS],
    own: &[u16; RECORD],
    block: &[u64; BLOCK],
    s: Situation,
) -> Option<Action>
    ensures { Does (own_statements (record_in words.now own.now) ∷ []) s (rule9_at s.minute) result }
{
    if s.leaving
        && !pool::record_holds(words, own, statements::leave(s.number), block)
        && may_leave(words, own, s)
    {
        return Some(Action::Leave);
    }
    None
}

// Rule 10: prepare the least notice whose payload is to be sent and was not.
pub fn rule10(
    words: &[u64; POOL_WORDS],
    own: &[u16; RECORD],
    block: &[u64; BLOCK],
    sends: &[u64; NOTICES],
    s: Situation,
) -> Option<Action>
    ensures { Does (own_statements (record_in words.now own.now) ∷ lent.sends sends.now ∷ []) s turn.rule10 result }
{
    if s.requested == 0
        || !s.stands
        || pool::record_holds(words, own, statements::leave(s.number), block)
    {
        return None;
    }
    let sent = signed::sent(words, own, s.number, block, sends);
    let j = signed::least(statements::except(s.requested, sent), s.ring.notices)?;
    Some(Action::Prepare(j as u8, sends[j]))
}
