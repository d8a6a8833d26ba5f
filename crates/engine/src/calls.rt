// Requests.
ghost use Rattle.std.specs.Prelude.{◌≡◌, min, ltb};
ghost use Rattle.protocol.specs.Call.{request_join, request_leave, request_send};
ghost use Rattle.engine.specs.Meaning.{controller_is, came_to};
ghost use Rattle.engine.specs.Promise.{Calls};

use crate::{Answer, Controller, Outcome, Refusal};
use statements::NOTICES;

// Whether the number is one of the first `notices` notices, of which there are at most 64.
pub fn is_notice(notice: u64, notices: usize) -> bool
    ensures { result ≡ ltb notice (min notices 64) }
{
    notice < NOTICES as u64 && (notice as usize) < notices
}

impl Controller {
    pub fn join(self) -> Result<Outcome, Refusal>
        ensures { Calls (request_join (controller_is self)) self (came_to self result) }
    {
        if !self.ready {
            return Err(Refusal::OutOfPlace);
        }
        if self.init.has_member(self.number) || self.joining {
            return Err(Refusal::BadRequest);
        }
        Ok(Outcome {
            answer: Answer::Taken,
            controller: Controller {
                joining: true,
                ..self
            },
        })
    }

    pub fn leave(self) -> Result<Outcome, Refusal>
        ensures { Calls (request_leave (controller_is self)) self (came_to self result) }
    {
        if !self.ready {
            return Err(Refusal::OutOfPlace);
        }
        if self.entered.len == 0 || self.leaving {
            return Err(Refusal::BadRequest);
        }
        Ok(Outcome {
            answer: Answer::Taken,
            controller: Controller {
                leaving: true,
                ..self
            },
        })
    }

    pub fn send(self, notice: u64, payload: u64) -> Result<Outcome, Refusal>
        ensures { Calls (λ X. request_send (controller_is self) X notice payload) self (came_to self result) }
    {
        if !self.ready {
            return Err(Refusal::OutOfPlace);
        }
        if !is_notice(notice, self.notices) {
            return Err(Refusal::UnknownNotice);
        }
        let j = notice as usize;
        if self.number != self.senders[j] || statements::has(self.requested, j) {
            return Err(Refusal::BadRequest);
        }
        let mut controller = self;
        controller.sends[j] = payload;
        controller.requested = statements::with_notice(self.requested, j);
        Ok(Outcome {
            answer: Answer::Taken,
            controller,
        })
    }
}
