#![tactic(auto)]
// What the label daemon calls. Each function decodes the record that it is lent, lets the session answer, and stores the session after it; none asks
// anything of its caller. `tacit_c` gives each its C name, under the same contract, and include/tacit.h says the same to C.
ghost use Rattle.std.specs.Prelude.{◌≡◌, length, Ok, Err};
ghost use Rattle.choice.specs.Pick.{pick};
ghost use Rattle.refusals.specs.declared.Refusal.TheVariants.{OutsideRow};
ghost use Rattle.kinds.specs.Kinds.{all_applications};
ghost use Rattle.area.specs.Area.{read_area};
ghost use Rattle.session.specs.Session.{sound};
ghost use Rattle.wishes.specs.Wishes.{wishes_after, wanted, wish_sac, sac_room};
ghost use Rattle.session.specs.Creation.{created, refusal_of};
ghost use Rattle.session.specs.Events.{Initialization, Capability, LocalChange, Wish, Mismatch, Hello, Closed, step, room_after};
ghost use Rattle.session.specs.Questions.{permitted_kinds, permission, why_not, retry_interval};
ghost use Rattle.record.specs.Record.{decoded};
ghost use Rattle.record.specs.Carried.{Carried};
ghost use Rattle.record.specs.Loaded.{load, store_refusal, store_octets};
ghost use Rattle.record.specs.Moves.{forward, forward_room, back_refusal, back_room};
ghost use Rattle.row.specs.Limiting.{no_limits, limited};
ghost use Rattle.totals.specs.Totals.{kind_total};
ghost use Rattle.row.specs.Row.{event_with, row_after, room_after as rowRoom, is_row, count_of, recount};
ghost use Rattle.row.specs.Counting.{counting, noted, told_count, told_totals};
ghost use Rattle.row.specs.Survey.{surveyed};
ghost use Rattle.tacit.specs.Creation.{CreatedIn};

use area::Reading;
use kinds::{SacApp, TaId};
use message::Message;
use record::{Loaded, Moved};
use refusals::Refusal;
use row::{Count, Counted, EventNumbers, Limited, Limits, RowTotals, Tally};
use session::{Answer, Kinds, Permission, Reason, Retry, Session, Settings};
use totals::{RowAnswer, Total, Totals};
use wishes::{Want, Written};

// C's struct: what a wish answers, and the wishes after it.
#[repr(C)]
#[derive(Clone, Copy)]
pub struct Wished {
    pub answer: Answer,
    pub wishes: u32,
}

// Here and below a function for each call that C has by name, refused by number; those that are alike are two lines each.
pub fn tacit_initialization(lent: &mut [u8], area: &[u8]) -> Answer
    ensures { Carried (step (decoded lent.old) (Initialization area.now all_applications)) lent.old result lent.new }
{
    let after = record::decoded(lent).initialization(area);
    record::carry(lent, after)
}

pub fn tacit_capability(lent: &mut [u8], area: &[u8]) -> Answer
    ensures { Carried (step (decoded lent.old) (Capability area.now)) lent.old result lent.new }
{
    let after = record::decoded(lent).capability(area);
    record::carry(lent, after)
}

#[tactic(auto, unfolding(choice::specs::Pick::pick, session::specs::Events::room_after))]
pub fn tacit_local_change(lent: &mut [u8], ta_id: u32, on: bool, room: &mut [u8]) -> Answer
    ensures carried { Carried (step (decoded lent.old) (LocalChange ta_id on (length room.old))) lent.old result lent.new }
    ensures room_after { room.new ≡ room_after (decoded lent.old) (LocalChange ta_id on (length room.old)) room.old }
{
    let before = record::decoded(lent);
    let after = before.local_change(TaId(ta_id), on, room.len());
    let message = Message::Change {
        number: before.next,
        ta_id,
        on,
    };
    message::write(room, after.answer.written, Some(message));
    record::carry(lent, after)
}

#[tactic(auto, using(session::proofs::Wishes::wish_about), unfolding(choice::specs::Pick::pick, session::specs::Events::room_after))]
pub fn tacit_wish(lent: &mut [u8], wishes: u32, app: u32, disable: bool, room: &mut [u8]) -> Wished
    ensures carried { Carried (step (decoded lent.old) (Wish wishes app disable (length room.old))) lent.old result.answer lent.new }
    ensures wishes_value { result.wishes ≡ wishes_after wishes app disable result.answer.refusal }
    ensures room_after { room.new ≡ room_after (decoded lent.old) (Wish wishes app disable (length room.old)) room.old }
{
    let before = record::decoded(lent);
    let after = before.wish(wishes, SacApp(app), disable, room.len());
    let message = Message::Wish {
        number: before.next,
        app,
        disable,
    };
    message::write(room, after.answer.written, Some(message));
    let kept = wishes::after(wishes, SacApp(app), disable, after.answer.refusal);
    let answer = record::carry(lent, after);
    Wished {
        answer,
        wishes: kept,
    }
}

pub fn tacit_mismatch(lent: &mut [u8]) -> Answer
    ensures { Carried (step (decoded lent.old) Mismatch) lent.old result lent.new }
{
    let after = record::decoded(lent).mismatch();
    record::carry(lent, after)
}

pub fn tacit_hello(lent: &mut [u8], number: u32) -> Answer
    ensures { Carried (step (decoded lent.old) (Hello number)) lent.old result lent.new }
{
    let after = record::decoded(lent).hello(number);
    record::carry(lent, after)
}

pub fn tacit_closed(lent: &mut [u8]) -> Answer
    ensures { Carried (step (decoded lent.old) Closed) lent.old result lent.new }
{
    let after = record::decoded(lent).closed();
    record::carry(lent, after)
}

// Stores a fresh session in a room of 24 octets; refused first for the room, then where there is none.
#[tactic(auto, unfolding(choice::specs::Pick::pick, crate::specs::Creation::created_in, record::specs::Record::stored_in, crate::specs::Creation::creation_refusal))]
fn created_in(lent: &mut [u8], made: Result<Session, Refusal>) -> Result<(), Refusal>
    ensures { CreatedIn made lent.old (refusal_of result) lent.new }
{
    if lent.len() != record::LENGTH {
        return Err(Refusal::NotSound);
    }
    record::stored_in(made?, lent);
    Ok(())
}

pub fn tacit_create(lent: &mut [u8], settings: Settings) -> u8
    ensures { CreatedIn (created settings) lent.old result lent.new }
{
    refusals::number_of(created_in(lent, Session::new(settings)))
}

pub fn tacit_read(area: &[u8]) -> Reading
    ensures { result ≡ read_area area.now }
{
    area::read_area(area)
}

pub fn tacit_permitted(lent: &[u8], kind: u32) -> Permission
    ensures { result ≡ permission (decoded lent.now) kind }
{
    record::decoded(lent).permission(kind).into()
}

pub fn tacit_permitted_kinds(lent: &[u8]) -> Kinds
    ensures { result ≡ permitted_kinds (decoded lent.now) }
{
    record::decoded(lent).permitted_kinds().into()
}

pub fn tacit_why_not(lent: &[u8], kind: u32) -> Reason
    ensures { result ≡ why_not (decoded lent.now) kind }
{
    record::decoded(lent).why_not(kind).into()
}

pub fn tacit_wish_sac(wishes: u32, room: &mut [u8]) -> Written
    ensures { (result ≡ wish_sac wishes (length room.old)) × (room.new ≡ sac_room wishes room.old) }
{
    wishes::sac(wishes, room).into()
}

pub fn tacit_wanted(wishes: u32, kind: u32) -> Want
    ensures { result ≡ wanted wishes kind }
{
    wishes::wanted(wishes, kind).into()
}

pub fn tacit_retry_interval(lent: &[u8]) -> Retry
    ensures { result ≡ retry_interval (decoded lent.now) }
{
    record::decoded(lent).retry_interval().into()
}

pub fn tacit_sound(lent: &[u8]) -> bool
    ensures { result ≡ sound (decoded lent.now) }
{
    record::decoded(lent).sound()
}

pub fn tacit_load(lent: &[u8]) -> Loaded
    ensures { result ≡ load lent.now }
{
    record::load(lent).into()
}

pub fn tacit_store(session: Session, lent: &mut [u8]) -> u8
    ensures { (result ≡ store_refusal session lent.old) × (lent.new ≡ store_octets session lent.old) }
{
    refusals::number_of(record::store(session, lent))
}

pub fn tacit_forward(kind1: &[u8], kind2: &mut [u8]) -> Moved
    ensures { (result ≡ forward kind1.now kind2.old) × (kind2.new ≡ forward_room kind1.now kind2.old) }
{
    record::moves::forward(kind1, kind2).into()
}

pub fn tacit_back(kind2: &[u8], kind1: &mut [u8]) -> u8
    ensures { (result ≡ back_refusal kind2.now kind1.old) × (kind1.new ≡ back_room kind2.now kind1.old) }
{
    refusals::number_of(record::moves::back(kind2, kind1))
}

pub fn tacit_no_limits() -> Limits
    ensures { result ≡ no_limits }
{
    Limits::none()
}

// No `From`: refused, C is told the limits as they were handed in, which the Result has not.
pub fn tacit_set_limit(limits: Limits, ta_id: u32, limit: u32) -> Limited
    ensures { result ≡ limited limits ta_id limit }
{
    match limits.limited(TaId(ta_id), limit) {
        Ok(limits) => Limited {
            refusal: refusals::NOT_REFUSED,
            limits,
        },
        Err(refusal) => Limited {
            refusal: refusal.into(),
            limits,
        },
    }
}

// The pass over a row of which something is asked: one that is not empty and not over 64.
#[tactic(auto, unfolding(choice::specs::Pick::pick))]
fn tally_of(row: &[Session], counted: Counted) -> Result<Tally, Refusal>
    ensures { result ≡ pick (is_row row.now) (Ok (surveyed (counting counted) (noted counted) row.now)) (Err OutsideRow) }
{
    if row.is_empty() | (row::MOST_SESSIONS < row.len()) {
        return Err(Refusal::OutsideRow);
    }
    Ok(row::tally_of(row, counted))
}

#[tactic(auto, using(row::proofs::Found::count_found, row::proofs::Tallied::not_counted_law), unfolding(choice::specs::Pick::pick))]
fn row_count(row: &[Session], ta_id: u32) -> Result<u8, Refusal>
    ensures { told_count result ≡ count_of row.now ta_id }
{
    tally_of(row, Counted::Applications)?.count_by(ta_id)
}

// The row is lent: one pass over it, and the answer by value.
pub fn tacit_row_count(row: &[Session], ta_id: u32) -> Count
    ensures { result ≡ count_of row.now ta_id }
{
    row_count(row, ta_id).into()
}

pub fn tacit_kind_total(totals: Totals, kind: u32) -> Total
    ensures { result ≡ kind_total totals kind }
{
    totals.of_kind(kind).into()
}

#[tactic(auto, using(row::proofs::Found::recount_found, row::proofs::Tallied::not_totalled_law), unfolding(choice::specs::Pick::pick))]
fn row_totals(row: &[Session]) -> Result<Totals, Refusal>
    ensures { told_totals result ≡ recount row.now }
{
    tally_of(row, Counted::Kinds)?.recount_by()
}

// The row is lent: the same pass over it, of kinds.
pub fn tacit_recount(row: &[Session]) -> RowTotals
    ensures { result ≡ recount row.now }
{
    row_totals(row).into()
}

// The row is lent: one pass over it, then the session is taken out, the event happens to it by value, and it is stored back.
#[tactic(auto, using(row::proofs::Found::sound_told, row::proofs::Tallied::outside_answer, row::proofs::Tallied::outside_row_law, row::proofs::Tallied::outside_room))]
pub fn tacit_row_event(
    row: &mut [Session],
    at: usize,
    event: EventNumbers,
    limits: Limits,
    totals: Totals,
    area: &[u8],
    room: &mut [u8],
) -> RowAnswer
    ensures { (result ≡ (event_with row.old at event limits totals area.now (length room.old)).answer) × (row.new ≡ row_after row.old at event limits totals area.now (length room.old)) × (room.new ≡ rowRoom row.old at event limits totals area.now room.old) }
{
    if (at < row.len()) & (row.len() <= row::MOST_SESSIONS) {
        let tally = row::tally_of(row, event.counted());
        let after = row::event_in(row[at], tally, event, limits, totals, area, room);
        row[at] = after.session;
        return after.answer;
    }
    row::outside(totals)
}
