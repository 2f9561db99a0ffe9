// A mismatch, found by ourselves or told by the peer: one effect.
ghost use Rattle.std.specs.Prelude.{◌≡◌};
ghost use Rattle.choice.specs.Pick.{pick};
ghost use Rattle.session.specs.Session.{state_ready, state_held, state_gone, state_number, active, leaves_gone};
ghost use Rattle.session.specs.With.{out_of_open, back_to_ready, mismatched};
ghost use Rattle.session.specs.Events.{step, Mismatch};

use crate::{After, Flag, Session, SoundSession, State};
use refusals::Refusal;

impl Session {
    // Out of Open, in a state, without some flags.
    fn out_of_open(self, state: State, off: u16, hello: u32) -> Session
        ensures { result ≡ out_of_open self (state_number state) off hello }
    {
        Session {
            state: state as u8,
            flags: crate::lowered(self.flags, off),
            disabled: 0,
            listed: 0,
            theirs: 0,
            hello,
            ..self
        }
    }

    // Ready again: the connection closed, or the mismatch of a passive end.
    pub(crate) fn back_to_ready(self) -> Session
        ensures { result ≡ back_to_ready self }
    {
        self.out_of_open(State::Ready, Self::CLEARED_OUT_OF_OPEN, self.hello)
    }

    // The state after a mismatch: an active end goes to Gone or to Held, a passive one to Ready.
    fn state_after(self) -> State
        ensures { state_number result ≡ pick (active self) (pick (leaves_gone self) state_gone state_held) state_ready }
    {
        if self.has(Flag::Active) {
            if self.leaves_gone() {
                return State::Gone;
            }
            return State::Held;
        }
        State::Ready
    }

    // The session after a mismatch; Gone forgets the recorded Hello. Like the permitted kinds it is picked field by field, and so is put in place where it is asked.
    #[tactic(auto, unfolding(choice::specs::Pick::pick, crate::specs::With::mismatched))]
    #[inline(always)]
    pub(crate) fn mismatched(self) -> Session
        ensures { result ≡ mismatched self }
    {
        let gone = self.has(Flag::Active) & self.leaves_gone();
        let off = if gone {
            Self::CLEARED_IN_GONE
        } else {
            Self::CLEARED_OUT_OF_OPEN
        };
        let hello = if gone { 0 } else { self.hello };
        self.out_of_open(self.state_after(), off, hello)
    }

    /// Mismatch notification received (Ready or Open), of a session that may not be sound.
    #[tactic(auto, unfolding(choice::specs::Pick::pick, crate::specs::Decisions::settled, crate::specs::Events::on_mismatch))]
    pub fn mismatch(self) -> After
        ensures { result ≡ step self Mismatch }
    {
        self.once_sound(|sound| sound.mismatch())
    }
}

impl SoundSession {
    /// Mismatch notification received: refused in any state but Ready and Open.
    #[tactic(auto, unfolding(choice::specs::Pick::pick, crate::specs::Decisions::settled, crate::specs::Events::on_mismatch))]
    #[inline(always)]
    pub fn mismatch(self) -> After
        ensures { result ≡ step self Mismatch }
    {
        let s = self.session;
        if s.is(State::Ready) | s.is(State::Open) {
            return s.as_mismatch(s);
        }
        s.refuse(Refusal::WrongState)
    }
}
