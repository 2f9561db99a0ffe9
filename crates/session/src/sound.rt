// What a sound session is, rule by rule.
ghost use Rattle.std.specs.Prelude.{◌≡◌, false, not, ◌&&◌};
ghost use Rattle.choice.specs.Pick.{pick};
ghost use Rattle.sets.specs.Set.{common, empty};
ghost use Rattle.session.specs.Session.{uses_tac, in_force, cleared_out_of_open, negotiated, spare_zero, hello_sound, held_sound, gone_sound, sound};

use crate::{Flag, Session, State};
use kinds::{Capability, SacApp, TaId};
use sets::Numbered;

// The tests stand in nested ifs: with `&&`, `||` and early returns `load` takes 74 instructions for 69, and `store` 79 for 74.

impl Session {
    // Sets with no spare bit are below these.
    const FLAGS_END: u8 = 1 << Flag::COUNT;

    pub(crate) const APPLICATIONS_END: u16 = 1 << TaId::COUNT;

    const KINDS_END: u16 = 1 << kinds::KIND_COUNT;

    const APPS_END: u8 = 1 << SacApp::COUNT;

    const CAPABILITIES_END: u8 = 1 << Capability::COUNT;

    // The state is one of the four, and no spare bit is set.
    #[tactic(auto, unfolding(choice::specs::Pick::pick, crate::specs::Session::spare_zero, sets::specs::Set::below))]
    fn spare_zero(self) -> bool
        ensures { result ≡ spare_zero self }
    {
        if self.state <= State::Gone as u8 {
            return (self.flags < Self::FLAGS_END)
                & ((self.enabled < Self::APPLICATIONS_END)
                    & ((self.listed < Self::APPLICATIONS_END)
                        & ((self.protects < Self::KINDS_END)
                            & ((self.disabled < Self::APPS_END)
                                & ((self.ours < Self::CAPABILITIES_END)
                                    & (self.theirs < Self::CAPABILITIES_END))))));
        }
        false
    }

    // In Open, listed empty unless in force, and in force only with TAC used and a common application.
    #[tactic(auto, unfolding(choice::specs::Pick::pick, sets::specs::Set::empty))]
    fn lists_sound(self) -> bool
        ensures { result ≡ pick (in_force self) (uses_tac self && not (empty (negotiated self))) (empty self.listed) }
    {
        if self.has(Flag::InForce) {
            return self.has(Flag::UsesTac) & (self.negotiated() != 0);
        }
        self.listed == 0
    }

    // In no other state in force, listed, disabled or dynamic, and no capability of the peer. Held only if active and not (initiating and drops). Gone only if active, initiating
    // and drops, with no Hello recorded.
    #[tactic(auto, unfolding(choice::specs::Pick::pick, crate::specs::Session::held_sound, crate::specs::Session::gone_sound, sets::specs::Set::empty))]
    fn shut_sound(self) -> bool
        ensures { result ≡ pick (empty (common self.flags cleared_out_of_open) && (empty self.listed && (empty self.disabled && empty self.theirs))) (held_sound self && gone_sound self) false }
    {
        if (sets::common(self.flags as u16, Self::CLEARED_OUT_OF_OPEN) == 0)
            & ((self.listed == 0) & ((self.disabled == 0) & (self.theirs == 0)))
        {
            if self.is(State::Held) {
                return self.has(Flag::Active) & !self.leaves_gone();
            }
            if self.is(State::Gone) {
                return self.has(Flag::Active) & (self.leaves_gone() & !self.has(Flag::Recorded));
            }
            return true;
        }
        false
    }

    // Hello number 0 unless recorded.
    #[tactic(auto, unfolding(choice::specs::Pick::pick, crate::specs::Session::hello_sound))]
    fn hello_sound(self) -> bool
        ensures { result ≡ hello_sound self }
    {
        if self.has(Flag::Recorded) {
            return true;
        }
        self.hello == 0
    }

    /// Every rule of a sound session holds: by the state, and once one fails the others are not asked.
    #[tactic(auto, using(crate::proofs::SoundByState::in_open, crate::proofs::SoundByState::not_in_open, crate::proofs::SoundByState::not_open), unfolding(choice::specs::Pick::pick, crate::specs::Session::sound))]
    pub fn sound(self) -> bool
        ensures { result ≡ sound self }
    {
        if self.spare_zero() {
            if self.hello_sound() {
                if self.is(State::Open) {
                    return self.lists_sound();
                }
                return self.shut_sound();
            }
            return false;
        }
        false
    }
}
