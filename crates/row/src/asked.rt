// What a pass over a row counts.
ghost use Rattle.std.specs.Prelude.{◌≡◌};
ghost use Rattle.row.specs.Counting.{counting, counted_for, noted};
ghost use Rattle.row.specs.Survey.{with_one, counts_by};

use crate::planes::Planes;
use crate::{APPLICATIONS, Counted, EventNumbers, RowEvent};
use session::SoundSession;

impl Counted {
    // Whether anything is counted.
    pub(crate) fn counting(self) -> bool
        ensures { result ≡ counting self }
    {
        match self {
            Counted::Nothing => false,
            Counted::Applications | Counted::Kinds => true,
        }
    }

    // The set of a session that is counted.
    #[inline(always)]
    fn noted(self, s: SoundSession) -> u16
        ensures { result ≡ noted self s }
    {
        match self {
            Counted::Kinds => s.session().permitted(),
            Counted::Nothing | Counted::Applications => s.used(),
        }
    }

    // The planes with one more session.
    #[inline(always)]
    #[tactic(auto, unfolding(choice::specs::Pick::pick, crate::specs::Survey::with_one))]
    pub(crate) fn with(self, planes: Planes, s: SoundSession) -> Planes
        ensures { result.each ≡ with_one (counting self) (noted self) planes.each s }
    {
        if self.counting() {
            return planes.added(self.noted(s));
        }
        planes
    }

    // What the planes come to: counts only where something was counted.
    #[tactic(auto, unfolding(choice::specs::Pick::pick, crate::specs::Survey::counts_by))]
    pub(crate) fn counts(self, planes: Planes) -> [u8; APPLICATIONS]
        ensures { result ≡ counts_by (counting self) planes.each }
    {
        if self.counting() {
            return planes.weighed_each();
        }
        [0; APPLICATIONS]
    }
}

impl EventNumbers {
    // Only an Initialization asks for counts.
    #[tactic(auto, unfolding(choice::specs::Pick::pick, crate::specs::Counting::counted_for, crate::specs::Events::case_of))]
    pub fn counted(self) -> Counted
        ensures { result ≡ counted_for self }
    {
        match RowEvent::from(self) {
            RowEvent::Initialization => Counted::Applications,
            _ => Counted::Nothing,
        }
    }
}
