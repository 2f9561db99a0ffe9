// A session among others: what it uses.
ghost use Rattle.std.specs.Prelude.{◌≡◌};
ghost use Rattle.session.specs.Limits.{used};

use crate::SoundSession;

impl SoundSession {
    /// The applications that it uses, as a set: those both enabled and listed. Out of force nothing is listed.
    #[tactic(auto, unfolding(choice::specs::Pick::pick, crate::specs::Limits::used))]
    pub fn used(self) -> u16
        ensures { result ≡ used self }
    {
        self.session.negotiated()
    }
}
