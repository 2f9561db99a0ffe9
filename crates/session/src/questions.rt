// The questions that change nothing. A session that is not sound is refused first.
ghost use Rattle.std.specs.Prelude.{◌≡◌, not};
ghost use Rattle.choice.specs.Pick.{pick};
ghost use Rattle.sets.specs.Set.{has};
ghost use Rattle.kinds.specs.Kinds.{opened};
ghost use Rattle.session.specs.Session.{negotiated};
ghost use Rattle.session.specs.Questions.{number_of, reason_number, why_not_enabled, why_not_listed, why_barred, kinds_of, permitted_kinds, permission_of, permission, why, reason_of, why_not, retry_of, retry_interval};

use crate::{Flag, Kinds, Permission, Reason, Retry, Session, SoundSession, State};
use refusals::Refusal;

/// What keeps a kind of label from being sent, by the numbers of `enum tacit_why`.
#[derive(Clone, Copy, Debug, PartialEq, Eq)]
pub enum Obstacle {
    NotOpen = 1,
    DisabledByPeer = 2,
    NotEnabled = 3,
    NotListed = 4,
    CapabilityNotOurs = 5,
    CapabilityNotTheirs = 6,
}

impl Obstacle {
    // The number that C is told where nothing is in the way.
    const NONE: u8 = 0;
}

// By hand: no derive makes a number of an enum.
/// The number that C is told.
impl From<Obstacle> for u8 {
    ghost from_gives = { λ obstacle number. number ≡ number_of obstacle };

    fn from(obstacle: Obstacle) -> u8 {
        obstacle as u8
    }
}

// Each of C's answers is made by an impl of its own: a trait for the `match` would need two functions of each in place of this one.
impl From<Result<u16, Refusal>> for Kinds {
    ghost from_gives = { λ answer told. told ≡ kinds_of answer };

    fn from(answer: Result<u16, Refusal>) -> Kinds {
        match answer {
            Ok(kinds) => Kinds {
                refusal: refusals::NOT_REFUSED,
                kinds,
            },
            Err(refusal) => Kinds {
                refusal: refusal.into(),
                kinds: 0,
            },
        }
    }
}

impl From<Result<bool, Refusal>> for Permission {
    ghost from_gives = { λ answer told. told ≡ permission_of answer };

    fn from(answer: Result<bool, Refusal>) -> Permission {
        match answer {
            Ok(permitted) => Permission {
                refusal: refusals::NOT_REFUSED,
                permitted: permitted as u8,
            },
            Err(refusal) => Permission {
                refusal: refusal.into(),
                permitted: 0,
            },
        }
    }
}

impl From<Result<Option<Obstacle>, Refusal>> for Reason {
    ghost from_gives = { λ answer told. told ≡ reason_of answer };

    fn from(answer: Result<Option<Obstacle>, Refusal>) -> Reason {
        match answer {
            Ok(None) => Reason {
                refusal: refusals::NOT_REFUSED,
                reason: Obstacle::NONE,
            },
            Ok(Some(obstacle)) => Reason {
                refusal: refusals::NOT_REFUSED,
                reason: obstacle.into(),
            },
            Err(refusal) => Reason {
                refusal: refusal.into(),
                reason: Obstacle::NONE,
            },
        }
    }
}

impl From<Result<u16, Refusal>> for Retry {
    ghost from_gives = { λ answer told. told ≡ retry_of answer };

    fn from(answer: Result<u16, Refusal>) -> Retry {
        match answer {
            Ok(interval) => Retry {
                refusal: refusals::NOT_REFUSED,
                interval,
            },
            Err(refusal) => Retry {
                refusal: refusal.into(),
                interval: 0,
            },
        }
    }
}

impl Session {
    const INTERVAL_IN_HELD: u16 = 65535;

    /// The set of the kinds that may be sent, kind k at bit k.
    #[tactic(auto, unfolding(choice::specs::Pick::pick, crate::specs::Questions::permitted_kinds))]
    pub fn permitted_kinds(self) -> Result<u16, Refusal>
        ensures { kinds_of result ≡ permitted_kinds self }
    {
        SoundSession::try_from(self)?;
        Ok(self.permitted())
    }

    /// Whether one kind may be sent. Refused for a kind over 9.
    #[tactic(auto, unfolding(choice::specs::Pick::pick, crate::specs::Questions::permission))]
    pub fn permission(self, kind: u32) -> Result<bool, Refusal>
        ensures { permission_of result ≡ permission self kind }
    {
        SoundSession::try_from(self)?;
        if kinds::KIND_COUNT <= kind {
            return Err(Refusal::OutOfRange);
        }
        // By a branch: `Ok(self.permits(..))` takes 99 instructions of a permitted kind, this 97.
        if self.permits(kind as u16) {
            return Ok(true);
        }
        Ok(false)
    }

    // By capabilities: the one that the kind needs is not ours, or not the peer's.
    #[tactic(auto, unfolding(choice::specs::Pick::pick, crate::specs::Questions::why_barred))]
    fn why_barred(self, kind: u16) -> Option<Obstacle>
        ensures { reason_number result ≡ why_barred self kind }
    {
        if kinds::bars_kind(self.ours, kind) {
            return Some(Obstacle::CapabilityNotOurs);
        }
        if kinds::bars_kind(self.theirs, kind) {
            return Some(Obstacle::CapabilityNotTheirs);
        }
        None
    }

    // Where negotiation is in force: an application that opens the kind is both enabled and listed, or enabled, or neither.
    #[tactic(auto, unfolding(choice::specs::Pick::pick, kinds::specs::Kinds::opened))]
    fn why_in_force(self, kind: u16) -> Option<Obstacle>
        ensures { reason_number result ≡ pick (not (has (opened self.protects self.enabled) kind)) why_not_enabled (pick (not (has (opened self.protects (negotiated self)) kind)) why_not_listed (why_barred self kind)) }
    {
        if kinds::opens_kind(self.negotiated(), self.protects, kind) {
            return self.why_barred(kind);
        }
        if kinds::opens_kind(self.enabled, self.protects, kind) {
            return Some(Obstacle::NotListed);
        }
        Some(Obstacle::NotEnabled)
    }

    // The first of the obstacles that there are.
    #[tactic(auto, unfolding(choice::specs::Pick::pick, crate::specs::Questions::why, crate::specs::Questions::unopened))]
    fn why(self, kind: u16) -> Option<Obstacle>
        ensures { reason_number result ≡ why self kind }
    {
        if !self.is(State::Open) {
            return Some(Obstacle::NotOpen);
        }
        if kinds::disables_kind(self.disabled, kind) {
            return Some(Obstacle::DisabledByPeer);
        }
        if self.has(Flag::InForce) {
            return self.why_in_force(kind);
        }
        self.why_barred(kind)
    }

    /// Why one kind may not be sent: none where it is permitted. Refused for a kind over 9.
    #[tactic(auto, unfolding(choice::specs::Pick::pick, crate::specs::Questions::why_not))]
    pub fn why_not(self, kind: u32) -> Result<Option<Obstacle>, Refusal>
        ensures { reason_of result ≡ why_not self kind }
    {
        SoundSession::try_from(self)?;
        if kinds::KIND_COUNT <= kind {
            return Err(Refusal::OutOfRange);
        }
        Ok(self.why(kind as u16))
    }

    /// How long to wait before a retry (RFC 8223, section 2.2, which names no unit): 65,535 in Held, else 0.
    #[tactic(auto, unfolding(choice::specs::Pick::pick, crate::specs::Questions::retry_interval))]
    pub fn retry_interval(self) -> Result<u16, Refusal>
        ensures { retry_of result ≡ retry_interval self }
    {
        SoundSession::try_from(self)?;
        if self.is(State::Held) {
            return Ok(Self::INTERVAL_IN_HELD);
        }
        Ok(0)
    }
}
