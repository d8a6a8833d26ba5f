// Rules 5 to 7: notices are acked, stored and delivered, the least that is due first.
// A rule that is lent `own` is lent the controller's own statements, since it asks for no others; `told` is the block that a report of this turn would tell.
ghost use Rattle.std.specs.Prelude.{◌≡◌, [], ◌∷◌, ◌<◌, get_or};
ghost use Rattle.protocol.specs.Turn as turn;
ghost use Rattle.views.specs.Held.{view_is};
ghost use Rattle.views.specs.Options.{option_of};
ghost use Rattle.statements.specs.Block.{block_word, group_at};
ghost use Rattle.pool.specs.Pool.{record_in};
ghost use Rattle.rules.specs.Rules.{ackable, AcksDue, PreparedOutside, statements, own_statements, Does};
ghost use Rattle.rules.specs.Rules as lent;

use crate::{Action, Situation, signed};
use pool::{POOL_WORDS, RECORD};
use statements::{BLOCK, Binding, Kind, NOTICES};
use views::View;

// Word i of the block.
fn word(told: &[u64; BLOCK], i: usize) -> u64
    requires { i < 131 }
    ensures { result ≡ block_word told.now i }
{
    told[i]
}

// The payload of the certificate for notice j that the block tells, or 0.
fn kept(told: &[u64; BLOCK], j: usize) -> u64
    ensures { result ≡ (group_at told.now j).kept }
{
    let t = statements::told_at(told, j);
    if t.stored { t.kept } else { 0 }
}

// Those notices outside the set that a sender who is a member of t prepared. The record is read only if there is a notice outside.
fn prepared_outside(
    words: &[u64; POOL_WORDS],
    ids: &[u16; RECORD],
    senders: &[u8; NOTICES],
    t: View,
    set: u64,
    notices: usize,
) -> u64
    ensures { PreparedOutside senders.now (record_in words.now ids.now) (view_is t) set notices result }
{
    if signed::least(statements::except(u64::MAX, set), notices).is_none() {
        return 0;
    }
    signed::prepared(words, ids, senders, t)
}

// Those notices that are not acked and of which there is something to ack.
fn acks_due(
    words: &[u64; POOL_WORDS],
    ids: &[u16; RECORD],
    senders: &[u8; NOTICES],
    told: &[u64; BLOCK],
    t: View,
    acked: u64,
    notices: usize,
) -> u64
    ensures { AcksDue senders.now (record_in words.now ids.now) (view_is t) told.now acked notices result }
{
    let bound = word(told, 0);
    let out = statements::either(word(told, 1), acked);
    let both = statements::either(bound, out);
    let prepared = prepared_outside(words, ids, senders, t, both, notices);
    statements::except(statements::either(bound, prepared), out)
}

// What there is to ack of notice j.
fn to_ack(
    words: &[u64; POOL_WORDS],
    ids: &[u16; RECORD],
    senders: &[u8; NOTICES],
    told: &[u64; BLOCK],
    t: View,
    j: usize,
) -> Option<u64>
    requires { j < 64 }
    ensures { result ≡ option_of (ackable senders.now (record_in words.now ids.now) (view_is t) told.now j) }
{
    match statements::told_at(told, j).binding {
        Binding::Bound(m) => Some(m),
        Binding::Barred => None,
        Binding::Unbound => {
            let sender = senders[j];
            if t.has_member(sender) {
                signed::first_prepare(words, ids, sender, j)
            } else {
                None
            }
        }
    }
}

// Rule 5: bind to a payload and ack it, once at each top.
pub fn rule5(
    words: &[u64; POOL_WORDS],
    ids: &[u16; RECORD],
    own: &[u16; RECORD],
    senders: &[u8; NOTICES],
    told: &[u64; BLOCK],
    s: Situation,
) -> Option<Action>
    ensures { Does (statements (record_in words.now ids.now) ∷ own_statements (record_in words.now own.now) ∷ lent.senders senders.now ∷ lent.told told.now ∷ []) s turn.rule5 result }
{
    if !s.stands {
        return None;
    }
    let t = s.top;
    let acked = signed::notices_at(words, own, s.number, Kind::Ack, t.word());
    let due = acks_due(words, ids, senders, told, t, acked, s.ring.notices);
    let j = signed::least(due, s.ring.notices)?;
    let m = to_ack(words, ids, senders, told, t, j)?;
    Some(Action::Ack(j as u8, m))
}

// Rule 6: store what has a certificate, once at each top.
pub fn rule6(
    words: &[u64; POOL_WORDS],
    own: &[u16; RECORD],
    told: &[u64; BLOCK],
    s: Situation,
) -> Option<Action>
    ensures { Does (own_statements (record_in words.now own.now) ∷ lent.told told.now ∷ []) s turn.rule6 result }
{
    if s.shown.certified == 0 || !s.stands {
        return None;
    }
    let stored = signed::notices_at(words, own, s.number, Kind::Store, s.top.word());
    let due = statements::except(s.shown.certified, stored);
    let j = signed::least(due, s.ring.notices)?;
    Some(Action::Store(j as u8, kept(told, j)))
}

// Rule 7: deliver what a quorum stored.
pub fn rule7(told: &[u64; BLOCK], s: Situation) -> Option<Action>
    ensures { Does (lent.told told.now ∷ []) s turn.rule7 result }
{
    if !s.active || s.left {
        return None;
    }
    let ready = statements::common(s.shown.certified, s.shown.stored);
    let j = signed::least(statements::except(ready, s.delivered), s.ring.notices)?;
    Some(Action::Deliver(j as u8, kept(told, j)))
}
