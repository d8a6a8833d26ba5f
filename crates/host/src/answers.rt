// What a call answers, as numbers, and the memory after it.
ghost use Rattle.std.specs.Prelude.{◌≡◌};
ghost use Rattle.engine.specs.Meaning.{came_to};
ghost use Rattle.host.specs.Host.{answer_number, value_number, notice_number, set_number, value_words};
ghost use Rattle.host.specs.Memory.{controller_at};
ghost use Rattle.host.specs.Stored.{Finished};

use crate::held;
use crate::held::FIELDS;
use engine::{Answer, Outcome, Refusal};

// How many words are told beside an answer: the value, and of a delivery the notice and the set of those behind its store quorum.
pub const VALUES: usize = 3;

// The first answer that leaves a controller as it was: left, then quiet and refused.
const LEFT: u8 = 4;

#[tactic(auto, unfolding(crate::specs::Host::answer_number, engine::specs::Meaning::answer_is))]
fn answer_number(a: Result<Answer, Refusal>) -> u8
    ensures { result ≡ answer_number a }
{
    match a {
        Ok(Answer::Taken) => 0,
        Ok(Answer::Signed(_)) => 1,
        Ok(Answer::Entered(_)) => 2,
        Ok(Answer::Delivered(_, _, _)) => 3,
        Ok(Answer::Left) => 4,
        Ok(Answer::Quiet) => 5,
        Err(_) => 6,
    }
}

#[tactic(auto, unfolding(crate::specs::Host::value_number, engine::specs::Meaning::answer_is))]
fn value_number(a: Result<Answer, Refusal>) -> u64
    ensures { result ≡ value_number a }
{
    match a {
        Ok(Answer::Taken | Answer::Left | Answer::Quiet) => 0,
        Ok(Answer::Signed(n)) => u64::from(n),
        Ok(Answer::Entered(v)) => v.word(),
        Ok(Answer::Delivered(_, m, _)) => m,
        Err(r) => engine::refusal_number(r),
    }
}

// The notice that was delivered and the set of those behind its store quorum.
fn delivered_words(a: Result<Answer, Refusal>) -> (u64, u64)
    ensures { result ≡ (notice_number a, set_number a) }
{
    match a {
        Ok(Answer::Delivered(j, _, set)) => (u64::from(j), u64::from(set)),
        _ => (0, 0),
    }
}

// Tells the answer: its number, and beside it the value, the notice and the set.
pub fn tell(a: Result<Answer, Refusal>, value: &mut [u64; VALUES]) -> u8
    ensures { (result ≡ answer_number a) × (value.new ≡ value_words a) }
{
    let (notice, set) = delivered_words(a);
    *value = [value_number(a), notice, set];
    answer_number(a)
}

// Tells what a call on the controller of the fields answered, and keeps the controller after it; where nothing was done the memory stays as it was.
pub fn finish(
    fields: &mut [u64; FIELDS],
    called: Result<Outcome, Refusal>,
    value: &mut [u64; VALUES],
) -> u8
    ensures { Finished (came_to (controller_at fields.old) called) fields.old result fields.new value.new }
{
    match called {
        Ok(done) => {
            let n = tell(Ok(done.answer), value);
            if n < LEFT {
                held::store(fields, done.controller);
            }
            n
        }
        Err(refusal) => tell(Err(refusal), value),
    }
}
