// Rules 1 to 4: reports, entering, and agreements on views and histories.
// A rule that is lent `own` is lent the controller's own statements, since it asks for no others.
ghost use Rattle.std.specs.Prelude.{◌≡◌, [], ◌∷◌, ◌≤◌, ◌<◌};
ghost use Rattle.protocol.specs.Turn as turn;
ghost use Rattle.views.specs.View.{view_in};
ghost use Rattle.views.specs.Held.{view_is};
ghost use Rattle.pool.specs.Pool.{record_in};
ghost use Rattle.evidence.specs.Evidence.{ring_is, Settled};
ghost use Rattle.evidence.specs.Notices.{senders_of};
ghost use Rattle.rules.specs.Rules.{report_due, statements, own_statements, candidate_views, greatest_views, Does};
ghost use Rattle.rules.specs.Rules as lent;

use crate::{Action, Situation, made, signed};
use pool::{POOL_WORDS, RECORD};
use statements::{BLOCK, Kind, NOTICES};
use views::View;

// Whether a report on the view of the word u is due.
fn is_due(words: &[u64; POOL_WORDS], own: &[u16; RECORD], number: u8, t: View, u: u64) -> bool
    ensures { result ≡ report_due (record_in words.now own.now) number (view_is t) (view_in u) }
{
    let v = View::of_word(u);
    v.below(t)
        && v.has_member(number)
        && !signed::signed_at(words, own, number, Kind::Report, v.word())
}

// Rule 1: report on the least older view on which a report is due.
pub fn rule1(
    words: &[u64; POOL_WORDS],
    own: &[u16; RECORD],
    greatest: &[u64; View::LIMIT],
    s: Situation,
) -> Option<Action>
    requires { s.shown.length ≤ 16 }
    ensures { Does (own_statements (record_in words.now own.now) ∷ greatest_views greatest.now ∷ []) s turn.rule1 result }
{
    for u in &greatest[..s.shown.length] {
        if is_due(words, own, s.number, s.top, *u) {
            return Some(Action::Report(View::of_word(*u)));
        }
    }
    None
}

// Rule 2: enter the top, once the older views are reported on.
pub fn rule2(
    words: &[u64; POOL_WORDS],
    ids: &[u16; RECORD],
    candidates: &[u64; View::LIMIT],
    greatest: &[u64; View::LIMIT],
    senders: &[u8; NOTICES],
    certs: &[u64; NOTICES],
    s: Situation,
) -> Option<Action>
    requires { Settled (ring_is s.ring) (senders_of senders.now s.ring.notices) (record_in words.now ids.now) candidates.now greatest.now certs.now s.shown }
    ensures { Does (statements (record_in words.now ids.now) ∷ lent.senders senders.now ∷ []) s turn.rule2 result }
{
    if s.top.has_member(s.number)
        && !s.entered
        && evidence::reported(
            words, ids, s.ring, senders, s.shown, candidates, greatest, certs,
        )
    {
        return Some(Action::Enter(s.top));
    }
    None
}

// Rule 3: agree to the wished view. The block may be any, here and below: only a report is asked for with its block.
pub fn rule3(
    words: &[u64; POOL_WORDS],
    own: &[u16; RECORD],
    block: &[u64; BLOCK],
    s: Situation,
) -> Option<Action>
    ensures { Does (own_statements (record_in words.now own.now) ∷ []) s turn.rule3 result }
{
    let t = s.top;
    let w = View::of_word(s.shown.wished);
    if s.stands
        && w.has_members()
        && w != t
        && !pool::record_holds(words, own, statements::agree_view(s.number, t, w), block)
    {
        return Some(Action::AgreeView);
    }
    None
}

// Rule 4: agree to the history of all candidates.
pub fn rule4(
    words: &[u64; POOL_WORDS],
    own: &[u16; RECORD],
    candidates: &[u64; View::LIMIT],
    block: &[u64; BLOCK],
    s: Situation,
) -> Option<Action>
    requires { (0 < s.shown.count) × (s.shown.count ≤ 16) }
    ensures { Does (own_statements (record_in words.now own.now) ∷ candidate_views candidates.now ∷ []) s turn.rule4 result }
{
    let n = s.shown.count;
    if !s.stands || View::of_word(candidates[n - 1]) == s.top {
        return None;
    }
    let h = made::history_of(candidates, n);
    if pool::record_holds(
        words,
        own,
        statements::agree_history(s.number, s.top, h),
        block,
    ) {
        return None;
    }
    Some(Action::AgreeHistory)
}
