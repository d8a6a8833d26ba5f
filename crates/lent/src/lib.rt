// One controller, lent for its turn.
#![tactic(auto)]

ghost use Rattle.engine.specs.Meaning.{came_to};
ghost use Rattle.lent.specs.Lent.{TurnedTo};

use engine::{Answer, Controller, Outcome, Refusal};
use pool::{POOL_WORDS, RECORD};

// The turn goes by value; what it leaves is stored where the controller was.
fn turn_one(
    c: &mut Controller,
    ids: &mut [u16; RECORD],
    words: &mut [u64; POOL_WORDS],
    minute: u16,
) -> Result<Answer, Refusal>
    ensures { TurnedTo words.old ids.old c.old minute result c.new words.new ids.new }
{
    let turned = c.turn(ids, words, minute)?;
    *c = turned.controller;
    Ok(turned.answer)
}

// The reference is made here, to a local, so that every caller has the controller by value.
pub fn lend_turn(
    c: Controller,
    ids: &mut [u16; RECORD],
    words: &mut [u64; POOL_WORDS],
    minute: u16,
) -> Result<Outcome, Refusal>
    ensures { TurnedTo words.old ids.old c minute (came_to c result).answer (came_to c result).controller words.new ids.new }
{
    let mut own = c;
    let answer = turn_one(&mut own, ids, words, minute)?;
    Ok(Outcome {
        answer,
        controller: own,
    })
}
