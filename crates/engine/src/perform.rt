// What the rule of a turn has the controller do.
ghost use Rattle.std.specs.Prelude.{◌≡◌, ◌≤◌, ◌<◌, true};
ghost use Rattle.std.proofs.Math.Option.{some};
ghost use Rattle.protocol.specs.Pool.{has_room};
ghost use Rattle.protocol.specs.Lists.{put};
ghost use Rattle.protocol.specs.Statement.{bound};
ghost use Rattle.protocol.specs.Controller.{with_binding, with_delivered};
ghost use Rattle.protocol.specs.Turn as protocol;
ghost use Rattle.statements.specs.Meaning.{stmt_of};
ghost use Rattle.pool.specs.Pool.{record_in, pool_of};
ghost use Rattle.evidence.specs.Shown.{BackedIn};
ghost use Rattle.engine.specs.Meaning.{controller_is, came_to};
ghost use Rattle.engine.specs.Situation.{Doing, Known, done_by, EntersMerged};
ghost use Rattle.engine.specs.Steps.{rest_is};
ghost use Rattle.engine.specs.Promise.{Turns};

use crate::{Answer, Controller, Outcome, Refusal, keep};
use evidence::{GROUPS, Notice};
use pool::{POOL_WORDS, RECORD};
use rules::{Action, Situation};
use statements::{BLOCK, Binding, NOTICES, Statement};
use views::View;

// The statement goes at the end of the record and is answered.
fn sign(
    c: Controller,
    ids: &mut [u16; RECORD],
    words: &mut [u64; POOL_WORDS],
    st: Statement,
    block: &[u64; BLOCK],
) -> Result<Outcome, Refusal>
    requires { st.history.len ≤ 16 }
    ensures { Turns words.old ids.old c (protocol.signing (controller_is c) (record_in words.old ids.old) (has_room (pool_of words.old)) (controller_is c) (stmt_of st block.now)) (came_to c result) words.new ids.new }
{
    let n = keep::keep(ids, words, st, block)?;
    Ok(Outcome {
        answer: Answer::Signed(n),
        controller: c,
    })
}

// The same, and notice j is bound to m from then on.
fn bind_and_sign(
    c: Controller,
    ids: &mut [u16; RECORD],
    words: &mut [u64; POOL_WORDS],
    j: u8,
    m: u64,
    st: Statement,
    block: &[u64; BLOCK],
) -> Result<Outcome, Refusal>
    requires { (st.history.len ≤ 16) × (j < 64) }
    ensures { Turns words.old ids.old c (protocol.signing (controller_is c) (record_in words.old ids.old) (has_room (pool_of words.old)) (with_binding (put j (bound m) (controller_is c).binding) (controller_is c)) (stmt_of st block.now)) (came_to c result) words.new ids.new }
{
    let n = keep::keep(ids, words, st, block)?;
    let mut after = c;
    after.held[j as usize] = Notice {
        binding: Binding::Bound(m),
    };
    Ok(Outcome {
        answer: Answer::Signed(n),
        controller: after,
    })
}

// The controller that entered v, with what the reports say of each notice and its own bindings merged.
fn enter(
    c: Controller,
    ids: &[u16; RECORD],
    words: &[u64; POOL_WORDS],
    candidates: &[u64; View::LIMIT],
    greatest: &[u64; View::LIMIT],
    certs: &[u64; NOTICES],
    s: Situation,
    v: View,
) -> Outcome
    requires { Doing c (record_in words.now ids.now) candidates.now greatest.now certs.now s }
    ensures { (result.answer ≡ Answer.Entered v) × EntersMerged c (record_in words.now ids.now) v result.controller }
{
    let held = evidence::merged(
        words, ids, s.ring, &c.senders, s.shown, candidates, greatest, certs, c.held,
    );
    let entered = c.entered.push(v);
    Outcome {
        answer: Answer::Entered(v),
        controller: Controller { entered, held, ..c },
    }
}

// What a controller with nothing to do answers: `gone` tells that it has left.
pub fn rest(gone: bool) -> Answer
    ensures { result ≡ rest_is gone }
{
    if gone { Answer::Left } else { Answer::Quiet }
}

// Notice j is delivered, and `set` is behind its store quorum.
fn deliver(c: Controller, j: u8, m: u64, set: u32) -> Outcome
    requires { j < 64 }
    ensures { (result.answer ≡ Answer.Delivered j m set) × (controller_is result.controller ≡ with_delivered (put j true (controller_is c).delivered) (controller_is c)) }
{
    Outcome {
        answer: Answer::Delivered(j, m, set),
        controller: Controller {
            delivered: statements::with_notice(c.delivered, j as usize),
            ..c
        },
    }
}

// Does the action a, of a rule that applies. The one statement of a turn is made here, where it is signed; `told` is the block that a report tells. Who stored what is delivered is
// asked here alone, by the groups of stores by quorums, so that no other turn pays for it.
pub fn perform(
    c: Controller,
    ids: &mut [u16; RECORD],
    words: &mut [u64; POOL_WORDS],
    candidates: &[u64; View::LIMIT],
    greatest: &[u64; View::LIMIT],
    certs: &[u64; NOTICES],
    groups: &[u64; GROUPS],
    told: &[u64; BLOCK],
    s: Situation,
    a: Action,
) -> Result<Outcome, Refusal>
    requires { Doing c (record_in words.old ids.old) candidates.now greatest.now certs.now s × Known a × BackedIn words.old ids.old s.ring.init groups.now s.shown.backed }
    ensures { Turns words.old ids.old c (protocol.perform (controller_is c) (record_in words.old ids.old) (has_room (pool_of words.old)) (some (done_by c (record_in words.old ids.old) candidates.now told.now s a))) (came_to c result) words.new ids.new }
{
    match a {
        Action::Enter(v) => Ok(enter(c, ids, words, candidates, greatest, certs, s, v)),
        Action::Deliver(j, m) => {
            let backed = s.shown.backed as usize;
            let set = evidence::stored_by(words, ids, s.ring.init, groups, backed, j, m);
            Ok(deliver(c, j, m, set))
        }
        Action::Ack(j, m) => {
            let st = rules::statement(candidates, s, a);
            bind_and_sign(c, ids, words, j, m, st, told)
        }
        _ => {
            let st = rules::statement(candidates, s, a);
            sign(c, ids, words, st, told)
        }
    }
}
