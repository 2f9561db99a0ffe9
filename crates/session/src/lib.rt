#![tactic(auto, unfolding(choice::specs::Pick::pick))]
// One targeted session, in numbers: the stored record's fields, and the capabilities of both ends. Every bit pattern is a value; `sound` says which of them
// is a session, and every event asks it first.
ghost use Rattle.std.specs.Prelude.{◌≡◌, ◌<◌, ◌==◌};
ghost use Rattle.sets.specs.Set.{has, minus};
ghost use Rattle.session.specs.Session.{state_number, flag_bit, leaves_gone, negotiated, held, nothing_common};
ghost use Rattle.session.specs.With.{held_to_ready, no_session};
ghost use Rattle.session.specs.Creation.{raised};

mod capability;
mod checked;
mod closed;
mod creation;
mod decisions;
mod hello;
mod initialization;
mod limits;
mod local_change;
mod mismatch;
mod permitted;
mod questions;
mod sound;
mod state;
mod unknown;
mod wish;

pub use checked::SoundSession;
pub use questions::Obstacle;
pub(crate) use state::{Flag, State};

// C's structs, here and below: numbers for states, flags, outcomes, obstacles and refusals, and a refusal's beside what is answered.
/// A session: its state and its flags by their numbers, and sets with a bit for each member, of Apps disabled by the peer, of applications enabled here and
/// listed by the peer, of the kinds that Session Protection opens, of our capabilities and the peer's; then the recorded Hello number and the next message number.
#[repr(C)]
#[derive(Clone, Copy)]
pub struct Session {
    pub state: u8,
    pub flags: u8,
    pub disabled: u8,
    pub enabled: u16,
    pub listed: u16,
    pub protects: u16,
    pub ours: u8,
    pub theirs: u8,
    pub hello: u32,
    pub next: u32,
}

/// What an event answers: the refusal and the outcome by their numbers, the kinds lost and gained as sets, and how many octets were written.
#[repr(C)]
#[derive(Clone, Copy)]
pub struct Answer {
    pub refusal: u8,
    pub outcome: u8,
    pub lost: u16,
    pub gained: u16,
    pub written: u16,
}

/// The session after an event, and the answer.
#[repr(C)]
#[derive(Clone, Copy)]
pub struct After {
    pub session: Session,
    pub answer: Answer,
}

/// What is settled at creation. Sets have a bit for each member: of kinds, 0 to 9; of enabled applications, 1 to 13, from bit 0 on; of our wishes, Apps
/// 1 to 4; of our capabilities, the three.
#[repr(C)]
#[derive(Clone, Copy)]
pub struct Settings {
    pub initiating: bool,
    pub active: bool,
    pub uses_tac: bool,
    pub drops: bool,
    pub protected_kinds: u32,
    pub enabled: u32,
    pub first_number: u32,
    pub wishes: u32,
    pub capabilities: u32,
}

/// Whether a kind may be sent, as C has it: the refusal's number, or 0 and 1 for permitted.
#[repr(C)]
#[derive(Clone, Copy)]
pub struct Permission {
    pub refusal: u8,
    pub permitted: u8,
}

/// The kinds that may be sent, as C has them: the refusal's number, or 0 and the set, kind k at bit k.
#[repr(C)]
#[derive(Clone, Copy)]
pub struct Kinds {
    pub refusal: u8,
    pub kinds: u16,
}

/// Why a kind may not be sent, as C has it: the refusal's number, or 0 and the obstacle's, 0 for a kind that is permitted.
#[repr(C)]
#[derive(Clone, Copy)]
pub struct Reason {
    pub refusal: u8,
    pub reason: u8,
}

/// The retry interval, as C has it: the refusal's number, or 0 and the interval.
#[repr(C)]
#[derive(Clone, Copy)]
pub struct Retry {
    pub refusal: u8,
    pub interval: u16,
}

impl Session {
    // The number where there is no state, in C's struct.
    const NO_STATE: u8 = 255;

    // Flags as sets: `raised` and `lowered` take sets of more than one flag, and of capabilities.
    const INITIATING: u16 = 1 << Flag::Initiating as u16;

    const ACTIVE: u16 = 1 << Flag::Active as u16;

    const USES_TAC: u16 = 1 << Flag::UsesTac as u16;

    const DROPS: u16 = 1 << Flag::Drops as u16;

    const IN_FORCE: u16 = 1 << Flag::InForce as u16;

    const DYNAMIC: u16 = 1 << Flag::Dynamic as u16;

    const RECORDED: u16 = 1 << Flag::Recorded as u16;

    // What leaving Open clears of the flags, and what Gone clears.
    const CLEARED_OUT_OF_OPEN: u16 = Self::IN_FORCE + Self::DYNAMIC;

    const CLEARED_IN_GONE: u16 = Self::CLEARED_OUT_OF_OPEN + Self::RECORDED;

    /// What stands where there is no session; it is not sound.
    pub fn none() -> Session
        ensures { result ≡ no_session }
    {
        Session {
            state: Self::NO_STATE,
            flags: 0,
            disabled: 0,
            enabled: 0,
            listed: 0,
            protects: 0,
            ours: 0,
            theirs: 0,
            hello: 0,
            next: 0,
        }
    }

    // In this state.
    #[inline(always)]
    fn is(self, state: State) -> bool
        ensures { result ≡ (self.state == state_number state) }
    {
        self.state == state as u8
    }

    // Not by `sets::has`: with it the test of soundness takes 1 to 3 instructions more.
    // With this flag.
    #[tactic(auto, unfolding(choice::specs::Pick::pick, sets::specs::Set::has))]
    #[inline(always)]
    fn has(self, flag: Flag) -> bool
        ensures { result ≡ has self.flags (flag_bit flag) }
    {
        (self.flags >> flag as u8) % 2 == 1
    }

    // Initiating and set to drop: a mismatch takes an active end to Gone.
    fn leaves_gone(self) -> bool
        ensures { result ≡ leaves_gone self }
    {
        self.has(Flag::Initiating) & self.has(Flag::Drops)
    }

    // The applications both enabled and listed.
    fn negotiated(self) -> u16
        ensures { result ≡ negotiated self }
    {
        sets::common(self.enabled, self.listed)
    }

    // The capabilities that both ends hold.
    #[tactic(auto, using(crate::proofs::Octets::common_fits))]
    fn held(self) -> u8
        ensures { result ≡ held self }
    {
        sets::common(self.ours as u16, self.theirs as u16) as u8
    }

    // In force with no application both enabled and listed.
    #[tactic(auto, unfolding(choice::specs::Pick::pick, crate::specs::Session::nothing_common, sets::specs::Set::empty))]
    fn nothing_common(self) -> bool
        ensures { result ≡ nothing_common self }
    {
        self.has(Flag::InForce) & (self.negotiated() == 0)
    }

    // By its number: the session's own is handed on, and a `State` would be made only to be turned back.
    // The state, Held as Ready.
    #[tactic(auto, unfolding(choice::specs::Pick::pick, crate::specs::With::held_to_ready))]
    fn held_to_ready(self) -> u8
        ensures { result ≡ held_to_ready self }
    {
        if self.is(State::Held) {
            return State::Ready as u8;
        }
        self.state
    }
}

// Flags with more of them, where `on` holds.
#[tactic(auto, using(crate::proofs::Octets::union_fits), unfolding(choice::specs::Pick::pick, crate::specs::Creation::raised))]
fn raised(flags: u8, on: bool, more: u16) -> u8
    requires { more < 256 }
    ensures { result ≡ raised flags on more }
{
    if on {
        return sets::union(flags as u16, more) as u8;
    }
    flags
}

// Flags without some of them.
#[tactic(auto, using(crate::proofs::Octets::minus_fits))]
fn lowered(flags: u8, off: u16) -> u8
    ensures { result ≡ minus flags off }
{
    sets::minus(flags as u16, off) as u8
}
