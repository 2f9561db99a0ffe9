// A fresh session.
ghost use Rattle.std.specs.Prelude.{◌≡◌};
ghost use Rattle.session.specs.Creation.{role_flags, created};

use crate::{Session, Settings, State};
use kinds::{Capability, TaId};
use refusals::Refusal;
use sets::Numbered;

impl Settings {
    // The roles, as flags.
    fn roles(self) -> u8
        ensures { result ≡ role_flags self.initiating self.active self.uses_tac self.drops }
    {
        let one = crate::raised(0, self.initiating, Session::INITIATING);
        let two = crate::raised(one, self.active, Session::ACTIVE);
        let three = crate::raised(two, self.uses_tac, Session::USES_TAC);
        crate::raised(three, self.drops, Session::DROPS)
    }
}

impl Session {
    // Sets of applications 1 to 13, of kinds 0 to 9, and of the three capabilities, are below these.
    pub const APPLICATIONS_LIMIT: u32 = 1 << TaId::COUNT;

    pub const KINDS_LIMIT: u32 = 1 << kinds::KIND_COUNT;

    pub const CAPABILITIES_LIMIT: u32 = 1 << Capability::COUNT;

    /// A fresh session: Ready, with no Hello recorded. Refused where a set has bits beyond its limits.
    #[tactic(auto, unfolding(choice::specs::Pick::pick, crate::specs::Creation::created, sets::specs::Set::below))]
    pub fn new(settings: Settings) -> Result<Session, Refusal>
        ensures { result ≡ created settings }
    {
        let protects = settings.protected_kinds;
        let enabled = settings.enabled;
        let flags = settings.roles();
        let kept = wishes::sound(settings.wishes);
        let ours = settings.capabilities;
        // All before the tests, and these nested: creation takes 46 instructions; in one flat chain 49 or 50, by `&&` 54.
        if (protects < Self::KINDS_LIMIT)
            & ((enabled < Self::APPLICATIONS_LIMIT) & (kept & (ours < Self::CAPABILITIES_LIMIT)))
        {
            return Ok(Session {
                state: State::Ready as u8,
                flags,
                disabled: 0,
                enabled: enabled as u16,
                listed: 0,
                protects: protects as u16,
                ours: ours as u8,
                theirs: 0,
                hello: 0,
                next: settings.first_number,
            });
        }
        Err(Refusal::OutOfRange)
    }
}
