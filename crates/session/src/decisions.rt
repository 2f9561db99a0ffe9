// The answers: one function for each thing that an event can be decided to come to, and no event computes an answer by itself.
ghost use Rattle.std.specs.Prelude.{◌≡◌, false};
ghost use Rattle.refusals.specs.Refusals.{number_of};
ghost use Rattle.session.specs.Session.{in_force, permitted};
ghost use Rattle.session.specs.Decisions.{outcome_done, outcome_number, refused, after_of, unchanged, answered, settled, Done, AsMismatch, Negotiate, Admit, Send};

use crate::{After, Answer, Flag, Session};
use refusals::Refusal;

// What came of an event that is not refused.
#[derive(Clone, Copy)]
pub(crate) enum Outcome {
    Done = 0,
    Unchanged = 1,
    Mismatch = 2,
    AtLimit = 3,
}

impl Answer {
    // Not refused, and nothing lost, gained or written.
    const DONE: Answer = Answer {
        refusal: refusals::NOT_REFUSED,
        outcome: Outcome::Done as u8,
        lost: 0,
        gained: 0,
        written: 0,
    };
}

impl Session {
    // A number and no `Refusal`: docs/PROMISES.md names this function, and it may be handed any.
    /// Refused with a number: the session stays, and nothing is lost, gained or written.
    #[inline(always)]
    pub fn refused(self, n: u8) -> After
        ensures { result ≡ refused self n }
    {
        After {
            session: self,
            answer: Answer {
                refusal: n,
                ..Answer::DONE
            },
        }
    }

    // Refused: the session stays. The one place where a refusal of a session's own event becomes its number.
    #[inline(always)]
    pub(crate) fn refuse(self, refusal: Refusal) -> After
        ensures { result ≡ refused self (number_of refusal) }
    {
        self.refused(refusal.into())
    }

    // What C is told of an event that may be refused.
    #[inline(always)]
    pub(crate) fn told(self, after: Result<After, Refusal>) -> After
        ensures { result ≡ after_of self after }
    {
        match after {
            Ok(after) => after,
            Err(refusal) => self.refuse(refusal),
        }
    }

    // Nothing happened, as all was so already.
    pub(crate) fn unchanged(self) -> After
        ensures { result ≡ unchanged self }
    {
        After {
            session: self,
            answer: Answer {
                outcome: Outcome::Unchanged as u8,
                ..Answer::DONE
            },
        }
    }

    // To a session that permits what this one does: nothing is lost or gained.
    #[tactic(auto, using(crate::proofs::Shapes::unmoved), unfolding(choice::specs::Pick::pick))]
    #[inline(always)]
    pub(crate) fn unmoved(self, after: Session, outcome: Outcome, written: u16) -> After
        requires { permitted after ≡ permitted self }
        ensures { result ≡ answered self after (outcome_number outcome) written }
    {
        After {
            session: after,
            answer: Answer {
                outcome: outcome as u8,
                written,
                ..Answer::DONE
            },
        }
    }

    // To a session that permits nothing: all that was permitted is lost.
    #[tactic(auto, using(crate::proofs::Shapes::only_lost), unfolding(choice::specs::Pick::pick))]
    #[inline(always)]
    pub(crate) fn only_lost(self, after: Session, outcome: Outcome) -> After
        requires { permitted after ≡ 0 }
        ensures { result ≡ answered self after (outcome_number outcome) 0 }
    {
        After {
            session: after,
            answer: Answer {
                outcome: outcome as u8,
                lost: self.permitted(),
                ..Answer::DONE
            },
        }
    }

    // From a session that permits nothing: all that is permitted is gained.
    #[tactic(auto, using(crate::proofs::Shapes::only_gained), unfolding(choice::specs::Pick::pick))]
    #[inline(always)]
    pub(crate) fn only_gained(self, after: Session) -> After
        requires { permitted self ≡ 0 }
        ensures { result ≡ answered self after outcome_done 0 }
    {
        After {
            session: after,
            answer: Answer {
                gained: after.permitted(),
                ..Answer::DONE
            },
        }
    }

    // From this session to the one after the event, whatever they permit: told what each does. Whoever asks computes that itself, so that it is put in place.
    #[tactic(auto, unfolding(choice::specs::Pick::pick, crate::specs::Decisions::answered))]
    #[inline(always)]
    fn moved(self, had: u16, after: Session, has: u16, written: u16) -> After
        requires { (had ≡ permitted self) × (has ≡ permitted after) }
        ensures { result ≡ answered self after outcome_done written }
    {
        After {
            session: after,
            answer: Answer {
                lost: sets::minus(had, has),
                gained: sets::minus(has, had),
                written,
                ..Answer::DONE
            },
        }
    }

    // To another session, with nothing asked of it.
    #[tactic(auto, unfolding(choice::specs::Pick::pick, crate::specs::Decisions::settled))]
    #[inline(always)]
    pub(crate) fn done(self, after: Session) -> After
        ensures { result ≡ settled self (Done after) }
    {
        let had = self.permitted();
        let has = after.permitted();
        self.moved(had, after, has, 0)
    }

    // To what a mismatch leaves of a session.
    #[tactic(auto, using(crate::proofs::Shapes::mismatched_permits), unfolding(choice::specs::Pick::pick, crate::specs::Decisions::settled))]
    #[inline(always)]
    pub(crate) fn as_mismatch(self, after: Session) -> After
        ensures { result ≡ settled self (AsMismatch after) }
    {
        self.only_lost(after.mismatched(), Outcome::Mismatch)
    }

    // To another session, or a mismatch where negotiation is in force and nothing is common.
    #[tactic(auto, unfolding(choice::specs::Pick::pick, crate::specs::Decisions::settled))]
    #[inline(always)]
    pub(crate) fn negotiate(self, after: Session) -> After
        ensures { result ≡ settled self (Negotiate after) }
    {
        if after.nothing_common() {
            return self.as_mismatch(after);
        }
        self.done(after)
    }

    // The same where nothing is permitted yet, or turned away by a limit: that leaves the state of a mismatch.
    #[tactic(auto, using(crate::proofs::Shapes::mismatched_permits), unfolding(choice::specs::Pick::pick, crate::specs::Decisions::settled, crate::specs::Limits::at_limit, sets::specs::Set::empty))]
    #[inline(always)]
    pub(crate) fn admit(self, after: Session, below_limit: u16) -> After
        requires { permitted self ≡ 0 }
        ensures { result ≡ settled self (Admit after below_limit) }
    {
        if after.nothing_common() {
            return self.unmoved(after.mismatched(), Outcome::Mismatch, 0);
        }
        if after.has(Flag::InForce) & (sets::common(after.negotiated(), below_limit) == 0) {
            return self.unmoved(after.mismatched(), Outcome::AtLimit, 0);
        }
        self.only_gained(after)
    }

    // The same as negotiate, and a message is written, which takes the next number. Out of force a change moves no kind.
    #[tactic(auto, unfolding(choice::specs::Pick::pick, crate::specs::Decisions::settled, crate::specs::Session::nothing_common, sets::specs::Set::empty, crate::specs::Session::permitted, crate::specs::Session::permitted_by_base))]
    #[inline(always)]
    pub(crate) fn send(self, after: Session, written: u16) -> After
        requires { in_force after ≡ false → permitted after ≡ permitted self }
        ensures { result ≡ settled self (Send after written) }
    {
        if !after.has(Flag::InForce) {
            return self.unmoved(after.with_next_number(), Outcome::Done, written);
        }
        if after.negotiated() == 0 {
            return self.as_mismatch(after);
        }
        let next = after.with_next_number();
        let had = self.permitted();
        let has = next.permitted();
        self.moved(had, next, has, written)
    }
}
