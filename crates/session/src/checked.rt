// Soundness as a type.
ghost use Rattle.std.specs.Prelude.{◌≡◌, true, false, Ok, Err};
ghost use Rattle.refusals.specs.Refusals.{not_sound};
ghost use Rattle.session.specs.Decisions.{refused};
ghost use Rattle.choice.specs.Pick.{pick};
ghost use Rattle.refusals.specs.declared.Refusal.TheVariants.{NotSound};
ghost use Rattle.session.specs.Session.{sound};

use crate::{After, Session};
use refusals::Refusal;
use std::marker::Model;

/// A session that is sound. The events that happen to it need not test it again.
#[derive(Clone, Copy)]
pub struct SoundSession {
    pub(crate) session: Session,
}

impl Model for SoundSession {
    ghost use Rattle.std.specs.Prelude.{◌≡◌, true};
    ghost use Rattle.session.specs.declared.Session.{Session};
    ghost use Rattle.session.specs.Session.{sound};

    ghost Value = { Session };

    ghost view = { λ s. s.session };

    ghost invariant = { λ s. sound s.session ≡ true };

    ghost inverse = { λ s. record { session = s } };
}

impl SoundSession {
    /// Of a session that is known to be sound.
    pub fn of(session: Session) -> SoundSession
        requires { sound session ≡ true }
        ensures { result ≡ session }
    {
        SoundSession { session }
    }

    /// The session itself.
    pub fn session(self) -> Session
        ensures { result ≡ self }
    {
        self.session
    }
}

/// The test, which every event makes before all others: refused with `NotSound`.
impl TryFrom<Session> for SoundSession {
    type Error = Refusal;

    ghost try_from_gives = { λ s r. r ≡ pick (sound s) (Ok s) (Err NotSound) };

    fn try_from(session: Session) -> Result<SoundSession, Refusal> {
        if session.sound() {
            return Ok(SoundSession { session });
        }
        Err(Refusal::NotSound)
    }
}

impl Session {
    // Each event keeps a method of its own by value, the buyer's form (docs/DECISIONS.md, "Which forms 01 asks for"); what they share is this.
    // What an event comes to that asks for soundness first: refused, or what happens to the sound session.
    #[tactic(auto, unfolding(choice::specs::Pick::pick))]
    #[inline(always)]
    pub(crate) fn once_sound<F: FnOnce(SoundSession) -> After>(self, event: F) -> After
        requires { sound self ≡ true → F.pre event self }
        ensures happens { sound self ≡ true → F.post event self result }
        ensures refused { sound self ≡ false → result ≡ refused self not_sound }
    {
        let Ok(sound) = SoundSession::try_from(self) else {
            return self.refuse(Refusal::NotSound);
        };
        event(sound)
    }
}
