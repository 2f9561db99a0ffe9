// A Hello with its sequence number.
ghost use Rattle.std.specs.Prelude.{◌≡◌};
ghost use Rattle.session.specs.With.{greeted};
ghost use Rattle.session.specs.Events.{step, Hello};

use crate::decisions::Outcome;
use crate::{After, Flag, Session, SoundSession, State};

impl Session {
    // The state by its number, as `held_to_ready` has it.
    // The Hello recorded, in a state.
    #[tactic(auto, unfolding(choice::specs::Pick::pick, crate::specs::Creation::raised))]
    fn greeted(self, state: u8, number: u32) -> Session
        ensures { result ≡ greeted self state number }
    {
        Session {
            state,
            flags: crate::raised(self.flags, true, Self::RECORDED),
            hello: number,
            ..self
        }
    }

    /// Hello received with its sequence number, of a session that may not be sound.
    #[tactic(auto, unfolding(choice::specs::Pick::pick, crate::specs::Decisions::settled, crate::specs::Events::on_hello))]
    pub fn hello(self, number: u32) -> After
        ensures { result ≡ step self (Hello number) }
    {
        self.once_sound(|sound| sound.hello(number))
    }
}

impl SoundSession {
    /// Hello received with its sequence number, in any state. It moves no kind.
    #[tactic(auto, using(crate::proofs::SoundMeans::sound_means, crate::proofs::Made::gone_shut, crate::proofs::Made::to_ready_law, crate::proofs::Shapes::greeted_permits), unfolding(choice::specs::Pick::pick, crate::specs::Decisions::settled, crate::specs::Events::on_hello, crate::specs::With::held_to_ready))]
    #[inline(always)]
    pub fn hello(self, number: u32) -> After
        ensures { result ≡ step self (Hello number) }
    {
        let s = self.session;
        if s.is(State::Gone) {
            return s.unmoved(s.greeted(State::Ready as u8, number), Outcome::Done, 0);
        }
        if !s.has(Flag::Recorded) {
            return s.unmoved(s.greeted(s.state, number), Outcome::Done, 0);
        }
        if s.hello < number {
            return s.unmoved(s.greeted(s.held_to_ready(), number), Outcome::Done, 0);
        }
        s.unchanged()
    }
}
