// Initialization.
ghost use Rattle.std.specs.Prelude.{◌≡◌, true, length};
ghost use Rattle.choice.specs.Pick.{pick};
ghost use Rattle.kinds.specs.Kinds.{all_applications};
ghost use Rattle.area.specs.Found.{told};
ghost use Rattle.area.specs.Parts.{Inside};
ghost use Rattle.lists.specs.Tac.{tac_list};
ghost use Rattle.session.specs.Decisions.{after_of};
ghost use Rattle.session.specs.Events.{takes_tac, after_initialization, step, Initialization};

use crate::{After, Flag, Session, SoundSession, State};
use area::Found;
use refusals::Refusal;

// The peer's list in an Initialization: none where TAC is not taken.
fn list_of(takes: bool, value: &[u8]) -> u16
    ensures { result ≡ pick takes (tac_list value.now true 0) 0 }
{
    if takes {
        return lists::tac_list(value, true, 0);
    }
    0
}

impl Session {
    // Every application, which is below its limit where there is none.
    const ALL_APPLICATIONS: u16 = Self::APPLICATIONS_END - 1;

    // The session uses TAC and the area holds one.
    pub(crate) fn takes_tac(self, found: Found) -> bool
        ensures { result ≡ takes_tac self (told found) }
    {
        self.has(Flag::UsesTac) & (0 < found.tac.len)
    }

    // Open by what the area holds, before any mismatch is looked for.
    #[tactic(auto, unfolding(choice::specs::Pick::pick, crate::specs::Events::after_initialization))]
    #[inline(always)]
    fn after_initialization(self, area: &[u8], found: Found) -> Session
        requires { Inside (length area.now) (told found) }
        ensures { result ≡ after_initialization self area.now (told found) }
    {
        let takes = self.takes_tac(found);
        let tac = found.tac;
        let sac = found.sac;
        let forced = crate::raised(self.flags, takes, Self::IN_FORCE);
        let flags = crate::raised(forced, found.dynamic, Self::DYNAMIC);
        let disabled = lists::sac_list(area::part_within(area, sac), true, 0);
        let listed = list_of(takes, area::part_within(area, tac));
        Session {
            state: State::Open as u8,
            flags,
            disabled,
            listed,
            theirs: found.capabilities,
            ..self
        }
    }

    // Here and below the arguments are those of the event, which docs/PROMISES.md names.
    /// Initialization received with this area, of a session that may not be sound and that stands in no row, so that no limit is asked.
    #[tactic(auto, unfolding(choice::specs::Pick::pick, crate::specs::Decisions::settled, crate::specs::Events::on_initialization))]
    pub fn initialization(self, area: &[u8]) -> After
        ensures { result ≡ step self (Initialization area.now all_applications) }
    {
        self.once_sound(|sound| sound.initialization(area, Self::ALL_APPLICATIONS))
    }
}

impl SoundSession {
    #[tactic(auto, using(crate::proofs::Shapes::ready_permits, area::proofs::Parts::parts_inside), unfolding(choice::specs::Pick::pick, crate::specs::Decisions::settled, crate::specs::Events::on_initialization))]
    #[inline(always)]
    fn try_initialization(self, area: &[u8], below_limit: u16) -> Result<After, Refusal>
        ensures { after_of self result ≡ step self (Initialization area.now below_limit) }
    {
        let s = self.session;
        if !s.is(State::Ready) {
            return Err(Refusal::WrongState);
        }
        let found = area::found_in(area)?;
        Ok(s.admit(s.after_initialization(area, found), below_limit))
    }

    /// Initialization received with this area, told the applications that are below their limit: refused in any state but Ready, and where the area is.
    #[inline(always)]
    pub fn initialization(self, area: &[u8], below_limit: u16) -> After
        ensures { result ≡ step self (Initialization area.now below_limit) }
    {
        self.session
            .told(self.try_initialization(area, below_limit))
    }
}
