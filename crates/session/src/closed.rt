// The connection closed.
ghost use Rattle.std.specs.Prelude.{◌≡◌};
ghost use Rattle.session.specs.Events.{step, Closed};

use crate::decisions::Outcome;
use crate::{After, Session, SoundSession, State};
use refusals::Refusal;

impl Session {
    /// Connection closed, of a session that may not be sound.
    #[tactic(auto, unfolding(choice::specs::Pick::pick, crate::specs::Decisions::settled, crate::specs::Events::on_closed))]
    pub fn closed(self) -> After
        ensures { result ≡ step self Closed }
    {
        // Not by `once_sound`: so a closed connection takes 101 instructions, and 100 at most is the bar.
        let Ok(sound) = SoundSession::try_from(self) else {
            return self.refuse(Refusal::NotSound);
        };
        sound.closed()
    }
}

impl SoundSession {
    /// Connection closed: refused in any state but Open. The session is Ready.
    #[tactic(auto, using(crate::proofs::Shapes::ready_permits), unfolding(choice::specs::Pick::pick, crate::specs::Decisions::settled, crate::specs::Events::on_closed))]
    #[inline(always)]
    pub fn closed(self) -> After
        ensures { result ≡ step self Closed }
    {
        let s = self.session;
        if s.is(State::Open) {
            return s.only_lost(s.back_to_ready(), Outcome::Done);
        }
        s.refuse(Refusal::WrongState)
    }
}
