// A limit for each application.
ghost use Rattle.std.specs.Prelude.{◌≡◌};
ghost use Rattle.row.specs.Limiting.{no_limits, capped, limited, told_limited};

use crate::{APPLICATIONS, Limits};
use kinds::TaId;
use refusals::Refusal;
use sets::Numbered;

impl Limits {
    // No row has more sessions: as a limit is kept, and as it is handed in.
    pub(crate) const HIGHEST: u8 = crate::MOST_SESSIONS as u8;

    const HIGHEST_HANDED_IN: u32 = crate::MOST_SESSIONS as u32;

    // 64 for each, until one is set.
    pub fn none() -> Limits
        ensures { result ≡ no_limits }
    {
        Limits {
            each: [Self::HIGHEST; APPLICATIONS],
        }
    }

    // The limit of one application set.
    #[tactic(auto, using(sets::proofs::Switches::numbered_is), unfolding(choice::specs::Pick::pick, crate::specs::Limiting::limited))]
    pub fn limited(mut self, app: TaId, limit: u32) -> Result<Limits, Refusal>
        ensures { told_limited self result ≡ limited self app.0 limit }
    {
        if !app.is_known() {
            return Err(Refusal::OutOfRange);
        }
        if limit > Self::HIGHEST_HANDED_IN {
            return Err(Refusal::LimitTooHigh);
        }
        self.each[(app.0 - 1) as usize] = limit as u8;
        Ok(self)
    }
}

// A limit over 64 acts as 64.
#[tactic(auto, unfolding(choice::specs::Pick::pick, crate::specs::Limiting::capped))]
pub(crate) fn capped(limit: u8) -> u8
    ensures { result ≡ capped limit }
{
    limit.min(Limits::HIGHEST)
}
