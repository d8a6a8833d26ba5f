// The order of the rules: the first that applies is done.
// A function that is lent `own` is lent the controller's own statements; `told` is the block that a report of this turn would tell, `sends` has the payloads to send.
#![tactic(auto)]

ghost use Rattle.std.specs.Prelude.{[], ◌∷◌, ◌≤◌, ◌<◌};
ghost use Rattle.protocol.specs.Turn as turn;
ghost use Rattle.pool.specs.Pool.{record_in};
ghost use Rattle.evidence.specs.Evidence.{ring_is, Settled};
ghost use Rattle.evidence.specs.Notices.{senders_of};
ghost use Rattle.rules.specs.Rules.{statements, own_statements, candidate_views, greatest_views, rule9_at, first_rule_at, first_among, Does};
ghost use Rattle.rules.specs.Rules as lent;

use pool::{POOL_WORDS, RECORD};
use rules::{Action, Situation};
use statements::{BLOCK, NOTICES};
use views::View;

// The first of the rules on what was requested that applies.
fn requested(
    words: &[u64; POOL_WORDS],
    own: &[u16; RECORD],
    told: &[u64; BLOCK],
    sends: &[u64; NOTICES],
    s: Situation,
) -> Option<Action>
    ensures { Does (own_statements (record_in words.now own.now) ∷ lent.sends sends.now ∷ []) s (first_among (turn.rule8 ∷ rule9_at s.minute ∷ turn.rule10 ∷ [])) result }
{
    rules::rule8(words, own, told, s)
        .or_else(|| rules::rule9(words, own, told, s))
        .or_else(|| rules::rule10(words, own, told, sends, s))
}

// The first of the rules from the fifth on that applies.
fn noticed(
    words: &[u64; POOL_WORDS],
    ids: &[u16; RECORD],
    own: &[u16; RECORD],
    senders: &[u8; NOTICES],
    told: &[u64; BLOCK],
    sends: &[u64; NOTICES],
    s: Situation,
) -> Option<Action>
    ensures { Does (statements (record_in words.now ids.now) ∷ own_statements (record_in words.now own.now) ∷ lent.senders senders.now ∷ lent.told told.now ∷ lent.sends sends.now ∷ []) s (first_among (turn.rule5 ∷ turn.rule6 ∷ turn.rule7 ∷ turn.rule8 ∷ rule9_at s.minute ∷ turn.rule10 ∷ [])) result }
{
    rules::rule5(words, ids, own, senders, told, s)
        .or_else(|| rules::rule6(words, own, told, s))
        .or_else(|| rules::rule7(told, s))
        .or_else(|| requested(words, own, told, sends, s))
}

// The first of the rules from the third on that applies.
fn agreed(
    words: &[u64; POOL_WORDS],
    ids: &[u16; RECORD],
    own: &[u16; RECORD],
    candidates: &[u64; View::LIMIT],
    senders: &[u8; NOTICES],
    told: &[u64; BLOCK],
    sends: &[u64; NOTICES],
    s: Situation,
) -> Option<Action>
    requires { (0 < s.shown.count) × (s.shown.count ≤ 16) }
    ensures { Does (statements (record_in words.now ids.now) ∷ own_statements (record_in words.now own.now) ∷ candidate_views candidates.now ∷ lent.senders senders.now ∷ lent.told told.now ∷ lent.sends sends.now ∷ []) s (first_among (turn.rule3 ∷ turn.rule4 ∷ turn.rule5 ∷ turn.rule6 ∷ turn.rule7 ∷ turn.rule8 ∷ rule9_at s.minute ∷ turn.rule10 ∷ [])) result }
{
    rules::rule3(words, own, told, s)
        .or_else(|| rules::rule4(words, own, candidates, told, s))
        .or_else(|| noticed(words, ids, own, senders, told, sends, s))
}

// The first rule that applies.
pub fn first_rule(
    words: &[u64; POOL_WORDS],
    ids: &[u16; RECORD],
    candidates: &[u64; View::LIMIT],
    greatest: &[u64; View::LIMIT],
    senders: &[u8; NOTICES],
    certs: &[u64; NOTICES],
    told: &[u64; BLOCK],
    sends: &[u64; NOTICES],
    s: Situation,
) -> Option<Action>
    requires { Settled (ring_is s.ring) (senders_of senders.now s.ring.notices) (record_in words.now ids.now) candidates.now greatest.now certs.now s.shown }
    ensures { Does (statements (record_in words.now ids.now) ∷ candidate_views candidates.now ∷ greatest_views greatest.now ∷ lent.senders senders.now ∷ lent.told told.now ∷ lent.sends sends.now ∷ []) s (first_rule_at s.minute) result }
{
    let mut own = [0u16; RECORD];
    rules::own_of(words, ids, s.number, &mut own);
    rules::rule1(words, &own, greatest, s)
        .or_else(|| rules::rule2(words, ids, candidates, greatest, senders, certs, s))
        .or_else(|| agreed(words, ids, &own, candidates, senders, told, sends, s))
}
