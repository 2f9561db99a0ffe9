#![tactic(auto)]
// A row of sessions: limits on how many use an application, totals of how many permit a kind, and an event of one session among the others. All of it goes by
// value but for `tally_of`, which is lent the row, as the C calls are.
ghost use Rattle.std.specs.Prelude.{◌≡◌, true, ◌≤◌, length};
ghost use Rattle.session.specs.Session.{sound};
ghost use Rattle.row.specs.Row.{outside};
ghost use Rattle.row.specs.Counting.{counting, noted, totalled_by, room_by};
ghost use Rattle.row.specs.Limiting.{most_sessions};
ghost use Rattle.row.specs.Survey.{surveyed};

use crate::planes::Planes;
use kinds::TaId;
use refusals::Refusal;
use session::{Session, SoundSession};
use sets::Numbered;
use totals::{RowAnswer, Totalled, Totals};

mod asked;
mod counting;
mod events;
mod limiting;
mod planes;
mod told;

// How many applications there are: a limit and a count for each.
const APPLICATIONS: usize = TaId::COUNT as usize;

// How many sessions a row may have.
pub const MOST_SESSIONS: usize = 64;

// C's structs, here and below: arrays by number, a refusal's number beside what is answered, and an event as numbers.
// Limits by application: TA-Id n at place n - 1.
#[repr(C)]
#[derive(Clone, Copy)]
pub struct Limits {
    pub each: [u8; APPLICATIONS],
}

// The limits with one of them set, or as they were and why.
#[repr(C)]
#[derive(Clone, Copy)]
pub struct Limited {
    pub refusal: u8,
    pub limits: Limits,
}

// How many sessions use an application.
#[repr(C)]
#[derive(Clone, Copy)]
pub struct Count {
    pub refusal: u8,
    pub count: u8,
}

// The totals of a row, counted anew, or why not.
#[repr(C)]
#[derive(Clone, Copy)]
pub struct RowTotals {
    pub refusal: u8,
    pub totals: Totals,
}

// An event as numbers: which of the six, and what a local change and a Hello bring.
#[repr(C)]
#[derive(Clone, Copy)]
pub struct EventNumbers {
    pub which: u32,
    pub ta_id: u32,
    pub on: u32,
    pub number: u32,
}

// An event by its case.
#[derive(Clone, Copy, Debug, PartialEq, Eq)]
pub(crate) enum RowEvent {
    Initialization,
    Capability,
    LocalChange { ta_id: u32, on: bool },
    Mismatch,
    Hello { number: u32 },
    Closed,
    Unknown,
}

// What a pass over a row counts: nothing, the applications that sessions use, or the kinds that they permit.
#[derive(Clone, Copy, Debug, PartialEq, Eq)]
pub enum Counted {
    Nothing,
    Applications,
    Kinds,
}

// What one pass over a row finds: whether all are sound, and how many use each application, or permit each kind.
// No Result: what `tally_of` promises names the counts of a row that is not sound, and `count_by`, `recount_by` and `event_in` are handed such a tally.
#[derive(Clone, Copy)]
pub struct Tally {
    pub sound: bool,
    pub counts: [u8; APPLICATIONS],
}

// Its arguments stand one by one, not in a struct: docs/PROMISES.md names this function, and each argument has a type that C hands in.
// The event of one session of the row, decided by what the pass over all of them found and then by the totals, and what it writes.
#[tactic(auto, unfolding(choice::specs::Pick::pick, crate::specs::Counting::room_by))]
pub fn event_in(
    s: Session,
    tally: Tally,
    event: EventNumbers,
    limits: Limits,
    totals: Totals,
    area: &[u8],
    room: &mut [u8],
) -> Totalled
    requires { tally.sound ≡ true → sound s ≡ true }
    ensures { (result ≡ totalled_by s tally event limits totals area.now (length room.old)) × (room.new ≡ room_by s tally event limits totals area.now room.old) }
{
    let decided = event.decided_by(s, tally, limits, area, room.len());
    let after = totals.totalled(s, decided);
    message::write(room, after.answer.answer.written, event.message_in(s));
    after
}

// The answer where there is no such session: the number is outside the row, or the row is none.
pub fn outside(totals: Totals) -> RowAnswer
    ensures { result ≡ outside totals }
{
    let after = Session::none().refused(Refusal::OutsideRow.into());
    let answer = after.answer;
    RowAnswer { answer, totals }
}

// What is counted is no closure: the contracts name it, by `counting counted` and `noted counted`.
// The pass over the row, which is the only loop over one. It ends at the first session that is not sound.
#[inline(always)]
#[tactic(auto, using(crate::proofs::Surveyed::onward_surveyed, crate::proofs::Surveyed::onward_more, crate::proofs::Surveyed::onward_stop, crate::proofs::Surveyed::onward_past), unfolding(choice::specs::Pick::pick))]
fn pass(row: &[Session], counted: Counted) -> Tally
    requires { length row.now ≤ most_sessions }
    ensures { result ≡ surveyed (counting counted) (noted counted) row.now }
{
    let mut planes = Planes::empty();
    for &s in row {
        let Ok(s) = SoundSession::try_from(s) else {
            return Tally {
                sound: false,
                counts: counted.counts(planes),
            };
        };
        planes = counted.with(planes, s);
    }
    Tally {
        sound: true,
        counts: counted.counts(planes),
    }
}

/// What a pass over the row finds: whether all are sound, and how many sessions have each member of what is counted, an application that they use or a kind
/// that they permit. The pass is put in place for each, so that it does not ask at every session what is counted.
pub fn tally_of(row: &[Session], counted: Counted) -> Tally
    requires { length row.now ≤ most_sessions }
    ensures { result ≡ surveyed (counting counted) (noted counted) row.now }
{
    match counted {
        Counted::Nothing => pass(row, Counted::Nothing),
        Counted::Applications => pass(row, Counted::Applications),
        Counted::Kinds => pass(row, Counted::Kinds),
    }
}
