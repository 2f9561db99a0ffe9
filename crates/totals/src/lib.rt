#![tactic(auto)]
// How many sessions of a row permit each kind: totals that are kept with the row and brought up to date from what each event lost and gained.
ghost use Rattle.std.specs.Prelude.{◌≡◌, true, Some, None};
ghost use Rattle.choice.specs.Pick.{pick};
ghost use Rattle.totals.specs.Totals.{total_after, goes_outside, moved_totals, totalled, kind_total, told_total};

use refusals::Refusal;
use session::{After, Answer, Session};

// How many kinds there are: a total for each.
pub const KINDS: usize = kinds::KIND_COUNT as usize;

// No row has more sessions.
const HIGHEST: u8 = 64;

// C's structs, here and below: arrays by number, and a refusal's number beside what is answered.
// Totals by kind: kind k at place k.
#[repr(C)]
#[derive(Clone, Copy)]
pub struct Totals {
    pub each: [u8; KINDS],
}

// How many sessions permit a kind.
#[repr(C)]
#[derive(Clone, Copy)]
pub struct Total {
    pub refusal: u8,
    pub total: u8,
}

// What an event of a row answers, and the totals after it.
#[repr(C)]
#[derive(Clone, Copy)]
pub struct RowAnswer {
    pub answer: Answer,
    pub totals: Totals,
}

// The session after an event of a row, and the answer.
#[derive(Clone, Copy)]
pub struct Totalled {
    pub session: Session,
    pub answer: RowAnswer,
}

// Each of C's answers is made by an impl of its own: a trait for the `match` would need two functions of each in place of this one.
// What C is told: the total, or why there is none.
impl From<Result<u8, Refusal>> for Total {
    ghost from_gives = { λ total told. told ≡ told_total total };

    fn from(total: Result<u8, Refusal>) -> Total {
        match total {
            Ok(total) => Total {
                refusal: refusals::NOT_REFUSED,
                total,
            },
            Err(refusal) => Total {
                refusal: refusal.into(),
                total: 0,
            },
        }
    }
}

// The total of a kind that moves, lost or else gained, after the event; none where it would come to stand outside 0 to 64.
#[tactic(auto, unfolding(crate::specs::Totals::goes_outside, crate::specs::Totals::total_after, choice::specs::Pick::pick))]
fn stepped(total: u8, lost: bool) -> Option<u8>
    ensures { result ≡ pick (goes_outside total lost true) None (Some (total_after total lost true)) }
{
    let stepped = if lost {
        total.checked_sub(1)?
    } else {
        total.checked_add(1)?
    };
    if HIGHEST < stepped {
        return None;
    }
    Some(stepped)
}

impl Totals {
    // The totals after an event that loses and gains these kinds.
    #[tactic(auto, using(crate::proofs::Rest::rest_begins), unfolding(crate::specs::Totals::moved_each, crate::specs::Totals::one_outside))]
    fn moved(self, lost: u16, gained: u16) -> Result<Totals, Refusal>
        ensures { result ≡ moved_totals self lost gained }
    {
        let each = self.each;
        let mut out = each;
        // Most events move few kinds: only these are gone through, from the first on. Those below `next` are done.
        // No `for`: no index is counted, and what is left of a set is no iterator of the library's.
        let mut rest = sets::common(kinds::ALL_KINDS, sets::union(lost, gained));
        let mut next = 0;
        while rest != 0 {
            let kind = sets::first(rest);
            let k = kind as usize;
            let Some(total) = stepped(each[k], sets::has(lost, kind)) else {
                return Err(Refusal::TotalOutside);
            };
            out[k] = total;
            rest = sets::without(rest, kind);
            next = k + 1;
        }
        Ok(Totals { each: out })
    }

    // What an event comes to in a row with these totals: the event's own refusals, and last that a total would come to stand outside 0 to 64.
    #[tactic(auto, unfolding(choice::specs::Pick::pick, crate::specs::Totals::totalled, crate::specs::Totals::moved_totals))]
    pub fn totalled(self, before: Session, after: After) -> Totalled
        ensures { result ≡ totalled self before after }
    {
        let (settled, totals) = match self.moved(after.answer.lost, after.answer.gained) {
            Ok(totals) => (after, totals),
            Err(refusal) => (before.refused(refusal.into()), self),
        };
        Totalled {
            session: settled.session,
            answer: RowAnswer {
                answer: settled.answer,
                totals,
            },
        }
    }

    // How many sessions permit a kind.
    #[tactic(auto, unfolding(choice::specs::Pick::pick, crate::specs::Totals::kind_total))]
    pub fn of_kind(self, kind: u32) -> Result<u8, Refusal>
        ensures { told_total result ≡ kind_total self kind }
    {
        if kind < kinds::KIND_COUNT {
            return Ok(self.each[kind as usize]);
        }
        Err(Refusal::OutOfRange)
    }
}
