// Our wish about one App, which stands beside the session.
ghost use Rattle.std.specs.Prelude.{◌≡◌};
ghost use Rattle.session.specs.Decisions.{after_of, settled, Tell};
ghost use Rattle.session.specs.Events.{telling, step, Wish};

use crate::decisions::Outcome;
use crate::{After, Flag, Session, SoundSession, State};
use kinds::SacApp;
use refusals::Refusal;
use sets::Numbered;

impl Session {
    // A message about what stands beside the session takes the next number, and moves no kind.
    #[tactic(auto, unfolding(choice::specs::Pick::pick, crate::specs::Session::permitted, crate::specs::Session::permitted_by_base, crate::specs::Decisions::settled))]
    fn tell(self, written: u16) -> After
        ensures { result ≡ settled self (Tell written) }
    {
        self.unmoved(self.with_next_number(), Outcome::Done, written)
    }

    // In Open a wish is told to a peer that takes Capability messages.
    #[tactic(auto, unfolding(choice::specs::Pick::pick, crate::specs::Decisions::settled, crate::specs::Events::telling))]
    #[inline(always)]
    fn telling(self, room: usize) -> Result<After, Refusal>
        ensures { after_of self result ≡ settled self (telling self room) }
    {
        if !self.is(State::Open) {
            return Err(Refusal::WrongState);
        }
        if !self.has(Flag::Dynamic) {
            return Err(Refusal::PeerNotDynamic);
        }
        if room < message::WISH_LENGTH {
            return Err(Refusal::NoRoom);
        }
        Ok(self.tell(message::WISH_LENGTH as u16))
    }

    // Here and below the arguments are those of the event, which docs/PROMISES.md names. It goes by value, so it is told the length of the room; `message::write` writes.
    /// Our wish about one App, of a session that may not be sound.
    #[tactic(auto, unfolding(choice::specs::Pick::pick, crate::specs::Decisions::settled, crate::specs::Events::on_wish))]
    pub fn wish(self, wishes: u32, app: SacApp, disable: bool, room: usize) -> After
        ensures { result ≡ step self (Wish wishes app.0 disable room) }
    {
        self.once_sound(|sound| sound.wish(wishes, app, disable, room))
    }
}

impl SoundSession {
    #[tactic(auto, using(wishes::proofs::Few::sound_few), unfolding(choice::specs::Pick::pick, crate::specs::Decisions::settled, crate::specs::Events::on_wish))]
    #[inline(always)]
    fn try_wish(
        self,
        wishes: u32,
        app: SacApp,
        disable: bool,
        room: usize,
    ) -> Result<After, Refusal>
        ensures { after_of self result ≡ step self (Wish wishes app.0 disable room) }
    {
        let s = self.session;
        if !wishes::sound(wishes) {
            return Err(Refusal::NotSound);
        }
        if !app.is_known() {
            return Err(Refusal::UnknownApp);
        }
        if app.is_in(wishes as u8) == disable {
            return Ok(s.unchanged());
        }
        s.telling(room)
    }

    /// Our wish about one App, told how many octets of room there are. What it writes is put there by `message::write`, and the wishes after it are
    /// `wishes::after`. Refused where the kept wishes have spare bits or the App is none, out of Open, and where the peer is not dynamic or the room is too short.
    #[inline(always)]
    pub fn wish(self, wishes: u32, app: SacApp, disable: bool, room: usize) -> After
        ensures { result ≡ step self (Wish wishes app.0 disable room) }
    {
        self.session.told(self.try_wish(wishes, app, disable, room))
    }
}
