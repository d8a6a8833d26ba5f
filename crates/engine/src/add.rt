// Additions.
ghost use Rattle.protocol.specs.Call.{add};
ghost use Rattle.protocol.specs.Pool.{has_room};
ghost use Rattle.statements.specs.Meaning.{stmt_of};
ghost use Rattle.pool.specs.Pool.{record_in, pool_of};
ghost use Rattle.engine.specs.Meaning.{controller_is, came_to};
ghost use Rattle.engine.specs.Promise.{Adds, AddsFor};

use crate::{Answer, Controller, Outcome, Refusal, calls, keep};
use pool::{POOL_WORDS, RECORD};
use statements::{BLOCK, Statement};

// An addition to the record of a controller that is set up or not, in a ring of so many notices: no addition asks more of a controller, nor changes it.
pub fn add_statement(
    ready: bool,
    notices: usize,
    ids: &mut [u16; RECORD],
    words: &mut [u64; POOL_WORDS],
    st: Statement,
    block: &[u64; BLOCK],
) -> Result<Answer, Refusal>
    ensures { AddsFor ready notices words.old ids.old (stmt_of st block.now) result words.new ids.new }
{
    if !ready {
        return Err(Refusal::OutOfPlace);
    }
    if !statements::keeps_field_rules(st, block, notices) {
        return Err(Refusal::BadStatement);
    }
    if !calls::is_notice(st.notice as u64, notices) {
        return Err(Refusal::UnknownNotice);
    }
    if pool::record_holds(words, ids, st, block) {
        return Err(Refusal::Repeated);
    }
    keep::keep(ids, words, st, block)?;
    Ok(Answer::Taken)
}

impl Controller {
    // The statement goes at the end of the record, and into the pool where that lacks it.
    pub fn add(
        self,
        ids: &mut [u16; RECORD],
        words: &mut [u64; POOL_WORDS],
        st: Statement,
        block: &[u64; BLOCK],
    ) -> Result<Outcome, Refusal>
        ensures { Adds words.old ids.old self (stmt_of st block.now) (add (controller_is self) (record_in words.old ids.old) (has_room (pool_of words.old)) (stmt_of st block.now)) (came_to self result) words.new ids.new }
    {
        let answer = add_statement(self.ready, self.notices, ids, words, st, block)?;
        Ok(Outcome {
            answer,
            controller: self,
        })
    }
}
