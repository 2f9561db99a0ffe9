// Local change of one application, on or off.
ghost use Rattle.std.specs.Prelude.{◌≡◌, false, ◌&&◌};
ghost use Rattle.session.specs.Session.{is_open, uses_tac, in_force, permitted};
ghost use Rattle.session.specs.With.{with_next_number};
ghost use Rattle.session.specs.Decisions.{after_of, settled};
ghost use Rattle.session.specs.Events.{writing, step, LocalChange};

use crate::decisions::Outcome;
use crate::{After, Flag, Session, SoundSession, State};
use kinds::TaId;
use refusals::Refusal;
use sets::Numbered;

impl Session {
    // The next message number; after 4,294,967,295 comes 0.
    pub(crate) fn with_next_number(self) -> Session
        ensures { result ≡ with_next_number self }
    {
        Session {
            next: self.next.wrapping_add(1),
            ..self
        }
    }

    // In Open with TAC used a change is written; any other is only set, and moves no kind.
    #[tactic(auto, unfolding(choice::specs::Pick::pick, crate::specs::Decisions::settled, crate::specs::Events::writing))]
    #[inline(always)]
    fn writing(self, after: Session, room: usize) -> Result<After, Refusal>
        requires { ((is_open self && uses_tac self) ≡ false → permitted after ≡ permitted self) × (in_force after ≡ false → permitted after ≡ permitted self) }
        ensures { after_of self result ≡ settled self (writing self after room) }
    {
        if !(self.is(State::Open) & self.has(Flag::UsesTac)) {
            return Ok(self.unmoved(after, Outcome::Done, 0));
        }
        if !self.has(Flag::Dynamic) {
            return Err(Refusal::PeerNotDynamic);
        }
        if room < message::CHANGE_LENGTH {
            return Err(Refusal::NoRoom);
        }
        Ok(self.send(after, message::CHANGE_LENGTH as u16))
    }

    // Here and below the arguments are those of the event, which docs/PROMISES.md names. It goes by value, so it is told the length of the room; `message::write` writes.
    /// Local change of one application, of a session that may not be sound.
    #[tactic(auto, unfolding(choice::specs::Pick::pick, crate::specs::Decisions::settled, crate::specs::Events::on_local_change))]
    pub fn local_change(self, app: TaId, on: bool, room: usize) -> After
        ensures { result ≡ step self (LocalChange app.0 on room) }
    {
        self.once_sound(|sound| sound.local_change(app, on, room))
    }
}

impl SoundSession {
    #[tactic(auto, using(crate::proofs::SoundMeans::sound_means, crate::proofs::Shapes::changed_permits, crate::proofs::Shapes::unused_unforced), unfolding(choice::specs::Pick::pick, crate::specs::Decisions::settled, crate::specs::Events::on_local_change, kinds::specs::Kinds::is_in))]
    #[inline(always)]
    fn try_local_change(self, app: TaId, on: bool, room: usize) -> Result<After, Refusal>
        ensures { after_of self result ≡ step self (LocalChange app.0 on room) }
    {
        let s = self.session;
        if !app.is_known() {
            return Err(Refusal::OutOfRange);
        }
        if app.is_in(s.enabled) == on {
            return Ok(s.unchanged());
        }
        // The application set, and a Held session Ready.
        let after = Session {
            state: s.held_to_ready(),
            enabled: app.switched(s.enabled, on),
            ..s
        };
        s.writing(after, room)
    }

    /// Local change of one application, on or off, told how many octets of room there are. What it writes is put there by `message::write`. Refused where the
    /// TA-Id is none, and in Open with TAC used where the peer is not dynamic or the room is too short.
    #[inline(always)]
    pub fn local_change(self, app: TaId, on: bool, room: usize) -> After
        ensures { result ≡ step self (LocalChange app.0 on room) }
    {
        self.session.told(self.try_local_change(app, on, room))
    }
}
