// An event by a number that none of them has.
ghost use Rattle.std.specs.Prelude.{◌≡◌};
ghost use Rattle.session.specs.Events.{step, Unknown};

use crate::{After, Session, SoundSession};
use refusals::Refusal;

impl Session {
    /// An event by a number that none has, of a session that may not be sound.
    #[tactic(auto, unfolding(choice::specs::Pick::pick, crate::specs::Decisions::settled, crate::specs::Events::on_unknown))]
    pub fn unknown(self) -> After
        ensures { result ≡ step self Unknown }
    {
        self.once_sound(|sound| sound.unknown())
    }
}

impl SoundSession {
    /// An event by a number that none has: it is for no state, and so refused.
    #[tactic(auto, unfolding(choice::specs::Pick::pick, crate::specs::Decisions::settled, crate::specs::Events::on_unknown))]
    #[inline(always)]
    pub fn unknown(self) -> After
        ensures { result ≡ step self Unknown }
    {
        self.session.refuse(Refusal::WrongState)
    }
}
