// An event as numbers, and what it makes of a session.
ghost use Rattle.std.specs.Prelude.{◌≡◌, true};
ghost use Rattle.session.specs.Session.{sound};
ghost use Rattle.session.specs.Events.{step};
ghost use Rattle.row.specs.Events.{case_of, event_of, message_in};
ghost use Rattle.row.specs.Counting.{below_limit_by, decided_by};

use crate::{EventNumbers, Limits, RowEvent, Tally};
use kinds::TaId;
use message::Message;
use refusals::Refusal;
use session::{After, Session, SoundSession};

impl From<EventNumbers> for RowEvent {
    ghost from_gives = { λ event case. case ≡ case_of event };

    #[tactic(auto, unfolding(choice::specs::Pick::pick, crate::specs::Events::case_of))]
    fn from(event: EventNumbers) -> RowEvent {
        match event.which {
            EventNumbers::INITIALIZATION => RowEvent::Initialization,
            EventNumbers::CAPABILITY => RowEvent::Capability,
            EventNumbers::LOCAL_CHANGE => RowEvent::LocalChange {
                ta_id: event.ta_id,
                on: event.on != 0,
            },
            EventNumbers::MISMATCH => RowEvent::Mismatch,
            EventNumbers::HELLO => RowEvent::Hello {
                number: event.number,
            },
            EventNumbers::CLOSED => RowEvent::Closed,
            _ => RowEvent::Unknown,
        }
    }
}

impl EventNumbers {
    // The numbers by which C names an event. All else goes by `RowEvent`.
    const INITIALIZATION: u32 = 0;

    const CAPABILITY: u32 = 1;

    const LOCAL_CHANGE: u32 = 2;

    const MISMATCH: u32 = 3;

    const HELLO: u32 = 4;

    const CLOSED: u32 = 5;

    // Here and below the arguments are those of `event_in`, handed on.
    // What the event makes of a sound session, told how many octets of room there are; only an Initialization asks which applications are below their limit.
    #[tactic(auto, unfolding(choice::specs::Pick::pick, crate::specs::Events::event_of, crate::specs::Events::case_of))]
    fn apply(self, s: SoundSession, tally: Tally, limits: Limits, area: &[u8], room: usize) -> After
        ensures { result ≡ step s (event_of self (below_limit_by tally limits) area.now room) }
    {
        match RowEvent::from(self) {
            RowEvent::Initialization => s.initialization(area, tally.below_limit_by(limits)),
            RowEvent::Capability => s.capability(area),
            RowEvent::LocalChange { ta_id, on } => s.local_change(TaId(ta_id), on, room),
            RowEvent::Mismatch => s.mismatch(),
            RowEvent::Hello { number } => s.hello(number),
            RowEvent::Closed => s.closed(),
            RowEvent::Unknown => s.unknown(),
        }
    }

    // The message that it may write: only a local change writes.
    #[inline(always)]
    #[tactic(auto, unfolding(choice::specs::Pick::pick, crate::specs::Events::message_in, crate::specs::Events::case_of))]
    pub(crate) fn message_in(self, s: Session) -> Option<Message>
        ensures { result ≡ message_in self s }
    {
        match RowEvent::from(self) {
            RowEvent::LocalChange { ta_id, on } => Some(Message::Change {
                number: s.next,
                ta_id,
                on,
            }),
            _ => None,
        }
    }

    // The event of one session of the row, by what the pass over all of them found.
    #[tactic(auto, unfolding(choice::specs::Pick::pick, crate::specs::Counting::decided_by))]
    pub(crate) fn decided_by(
        self,
        s: Session,
        tally: Tally,
        limits: Limits,
        area: &[u8],
        room: usize,
    ) -> After
        requires { tally.sound ≡ true → sound s ≡ true }
        ensures { result ≡ decided_by s tally self limits area.now room }
    {
        if tally.sound {
            return self.apply(SoundSession::of(s), tally, limits, area, room);
        }
        s.refused(Refusal::NotSound.into())
    }
}
