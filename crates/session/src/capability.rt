// Capability message.
ghost use Rattle.std.specs.Prelude.{◌≡◌, length};
ghost use Rattle.area.specs.Found.{told};
ghost use Rattle.area.specs.Parts.{Inside};
ghost use Rattle.session.specs.With.{with_flags, with_listed};
ghost use Rattle.session.specs.Capabilities.{theirs_after};
ghost use Rattle.session.specs.Decisions.{after_of};
ghost use Rattle.session.specs.Events.{list_after, flags_after, after_capability, step, Capability};

use crate::{After, Flag, Session, SoundSession, State};
use area::Found;
use refusals::Refusal;

impl Session {
    // After a TAC: S says whether negotiation is in force. S = 0 empties the peer's list; else it is changed, from the empty one where negotiation
    // was not in force.
    #[tactic(auto, unfolding(choice::specs::Pick::pick, crate::specs::Events::flags_after, crate::specs::Events::list_after, crate::specs::Creation::raised))]
    #[inline(always)]
    fn after_tac(self, value: &[u8]) -> Session
        ensures { result ≡ with_listed (with_flags self (flags_after self value.now)) (list_after self value.now) }
    {
        if !area::s_bit(value) {
            return Session {
                flags: crate::lowered(self.flags, Self::IN_FORCE),
                listed: 0,
                ..self
            };
        }
        let listed = if self.has(Flag::InForce) {
            self.listed
        } else {
            0
        };
        Session {
            flags: crate::raised(self.flags, true, Self::IN_FORCE),
            listed: lists::tac_list(value, false, listed),
            ..self
        }
    }

    // The peer's capabilities: of those present the ones with S = 1 are held, and the others withdrawn.
    #[tactic(auto, unfolding(choice::specs::Pick::pick, crate::specs::Capabilities::theirs_after, crate::specs::Creation::raised))]
    fn theirs_after(self, found: Found) -> u8
        ensures { result ≡ theirs_after self.theirs (told found) }
    {
        let kept = crate::lowered(self.theirs, found.capabilities as u16);
        crate::raised(kept, true, found.holding as u16)
    }

    // With what the area says, before any mismatch is looked for.
    #[tactic(auto, unfolding(choice::specs::Pick::pick, crate::specs::Events::after_capability, crate::specs::Events::flags_after, crate::specs::Events::list_after))]
    #[inline(always)]
    fn after_capability(self, area: &[u8], found: Found) -> Session
        requires { Inside (length area.now) (told found) }
        ensures { result ≡ after_capability self area.now (told found) }
    {
        let tac = found.tac;
        let sac = found.sac;
        let after = Session {
            disabled: lists::sac_list(area::part_within(area, sac), false, self.disabled),
            theirs: self.theirs_after(found),
            ..self
        };
        if self.takes_tac(found) {
            return after.after_tac(area::part_within(area, tac));
        }
        after
    }

    /// Capability message received with this area, of a session that may not be sound.
    #[tactic(auto, unfolding(choice::specs::Pick::pick, crate::specs::Decisions::settled, crate::specs::Events::on_capability))]
    pub fn capability(self, area: &[u8]) -> After
        ensures { result ≡ step self (Capability area.now) }
    {
        self.once_sound(|sound| sound.capability(area))
    }
}

impl SoundSession {
    #[tactic(auto, using(area::proofs::Parts::parts_inside), unfolding(choice::specs::Pick::pick, crate::specs::Decisions::settled, crate::specs::Events::on_capability))]
    #[inline(always)]
    fn try_capability(self, area: &[u8]) -> Result<After, Refusal>
        ensures { after_of self result ≡ step self (Capability area.now) }
    {
        let s = self.session;
        if !s.is(State::Open) {
            return Err(Refusal::WrongState);
        }
        let found = area::found_in(area)?;
        Ok(s.negotiate(s.after_capability(area, found)))
    }

    /// Capability message received with this area: refused in any state but Open, and where the area is.
    #[inline(always)]
    pub fn capability(self, area: &[u8]) -> After
        ensures { result ≡ step self (Capability area.now) }
    {
        self.session.told(self.try_capability(area))
    }
}
