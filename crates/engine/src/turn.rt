// A turn: the first rule that applies is done.
ghost use Rattle.std.specs.Prelude.{◌≡◌, ◌≤◌, ◌<◌};
ghost use Rattle.protocol.specs.Pool.{has_room};
ghost use Rattle.protocol.specs.Turn as protocol;
ghost use Rattle.statements.specs.Block.{TellsGroup};
ghost use Rattle.pool.specs.Pool.{record_in, pool_of};
ghost use Rattle.evidence.specs.Shown.{BackedIn};
ghost use Rattle.evidence.specs.Evidence.{ring_is, Settled};
ghost use Rattle.evidence.specs.Notices.{senders_of};
ghost use Rattle.engine.specs.Meaning.{controller_is, came_to};
ghost use Rattle.engine.specs.Situation.{RingOf, ToldTo, notice_told};
ghost use Rattle.engine.specs.Promise.{Turns};

use crate::{Controller, Outcome, Refusal, perform, situation};
use evidence::{Evidence, GROUPS, KEYS, Notice, Ring};
use pool::{POOL_WORDS, RECORD};
use statements::{BLOCK, Binding, NOTICES, Told};
use views::View;
use windows::LAST_MINUTE;

// Tells of notice j the binding, and the payload of its certificate if it is in the set of those that have one.
fn tell_notice(
    told: &mut [u64; BLOCK],
    j: usize,
    b: Binding,
    certified: u64,
    certs: &[u64; NOTICES],
)
    requires { j < 64 }
    ensures { TellsGroup told.old j (notice_told b certified certs.now j) told.new }
{
    let t = Told {
        binding: b,
        stored: statements::has(certified, j),
        kept: certs[j],
    };
    statements::tell(told, j, t);
}

// Tells what a report of this turn would tell: of each of the first n notices the binding, and the certificate's payload. The bindings are lent, so that none is copied.
fn tell_all(
    told: &mut [u64; BLOCK],
    held: &[Notice; NOTICES],
    n: usize,
    e: Evidence,
    certs: &[u64; NOTICES],
)
    requires { n ≤ 64 }
    ensures { ToldTo held.now e certs.now n told.new }
{
    for j in 0..n {
        tell_notice(told, j, held[j].binding, e.certified, certs);
    }
}

// The ring of a controller.
pub fn ring_of(c: Controller) -> Ring
    ensures { RingOf c result }
{
    Ring {
        init: c.init.word(),
        notices: c.notices,
    }
}

impl Controller {
    // A turn at the minute of the week: the first rule that applies is done. The votes of the record are gathered in memory that is lent, and that may hold anything.
    pub fn turn_in(
        self,
        ids: &mut [u16; RECORD],
        words: &mut [u64; POOL_WORDS],
        keys: &mut [u64; KEYS],
        groups: &mut [u64; GROUPS],
        minute: u16,
    ) -> Result<Outcome, Refusal>
        ensures { Turns words.old ids.old self (protocol.turn (controller_is self) (record_in words.old ids.old) (has_room (pool_of words.old)) minute) (came_to self result) words.new ids.new }
    {
        if !self.ready {
            return Err(Refusal::OutOfPlace);
        }
        if minute > LAST_MINUTE {
            return Err(Refusal::BadMinute);
        }
        let ring = ring_of(self);
        let mut candidates = [0u64; View::LIMIT];
        let mut greatest = [0u64; View::LIMIT];
        let mut certs = [0u64; NOTICES];
        let e = evidence::of_record(
            words,
            ids,
            ring,
            &self.senders,
            keys,
            groups,
            &mut candidates,
            &mut greatest,
            &mut certs,
        );
        if e.conflict {
            return Err(Refusal::Conflict);
        }
        if e.many {
            return Err(Refusal::ManyCandidates);
        }
        self.act(
            ids,
            words,
            ring,
            e,
            &candidates,
            &greatest,
            &certs,
            groups,
            minute,
        )
    }

    // The first rule that applies is done, by the evidence e of the record, in which nothing stands against it. The controller is lent, so that none is copied for it.
    fn act(
        &self,
        ids: &mut [u16; RECORD],
        words: &mut [u64; POOL_WORDS],
        ring: Ring,
        e: Evidence,
        candidates: &[u64; View::LIMIT],
        greatest: &[u64; View::LIMIT],
        certs: &[u64; NOTICES],
        groups: &[u64; GROUPS],
        minute: u16,
    ) -> Result<Outcome, Refusal>
        requires { RingOf self.now ring × Settled (ring_is ring) (senders_of self.now.senders ring.notices) (record_in words.old ids.old) candidates.now greatest.now certs.now e × BackedIn words.old ids.old ring.init groups.now e.backed }
        ensures { Turns words.old ids.old self.now (protocol.perform (controller_is self.now) (record_in words.old ids.old) (has_room (pool_of words.old)) (protocol.first_rule (controller_is self.now) (record_in words.old ids.old) minute)) (came_to self.now result) words.new ids.new }
    {
        let mut told = [0u64; BLOCK];
        tell_all(&mut told, &self.held, self.notices.min(NOTICES), e, certs);
        let s = situation::of_controller(*self, ring, e, greatest, minute);
        let Some(a) = order::first_rule(
            words,
            ids,
            candidates,
            greatest,
            &self.senders,
            certs,
            &told,
            &self.sends,
            s,
        ) else {
            return Ok(Outcome {
                answer: perform::rest(s.left),
                controller: *self,
            });
        };
        perform::perform(
            *self, ids, words, candidates, greatest, certs, groups, &told, s, a,
        )
    }

    // The same in memory of its own, which is cleared first.
    pub fn turn(
        self,
        ids: &mut [u16; RECORD],
        words: &mut [u64; POOL_WORDS],
        minute: u16,
    ) -> Result<Outcome, Refusal>
        ensures { Turns words.old ids.old self (protocol.turn (controller_is self) (record_in words.old ids.old) (has_room (pool_of words.old)) minute) (came_to self result) words.new ids.new }
    {
        let mut keys = [0u64; KEYS];
        let mut groups = [0u64; GROUPS];
        self.turn_in(ids, words, &mut keys, &mut groups, minute)
    }
}
