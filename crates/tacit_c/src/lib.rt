#![tactic(auto)]
// The library as C sees it: a static library cannot be used by a Rattle crate, so each of its exports is a call of the function of the same name
// in `tacit`, and promises the same. include/tacit.h says it to C.
ghost use Rattle.std.specs.Prelude.{◌≡◌, length};
ghost use Rattle.kinds.specs.Kinds.{all_applications};
ghost use Rattle.area.specs.Area.{read_area};
ghost use Rattle.session.specs.Session.{sound};
ghost use Rattle.wishes.specs.Wishes.{wishes_after, wanted, wish_sac, sac_room};
ghost use Rattle.session.specs.Creation.{created};
ghost use Rattle.session.specs.Events.{Initialization, Capability, LocalChange, Wish, Mismatch, Hello, Closed, step, room_after};
ghost use Rattle.session.specs.Questions.{permitted_kinds, permission, why_not, retry_interval};
ghost use Rattle.record.specs.Record.{decoded};
ghost use Rattle.record.specs.Carried.{Carried};
ghost use Rattle.record.specs.Loaded.{load, store_refusal, store_octets};
ghost use Rattle.record.specs.Moves.{forward, forward_room, back_refusal, back_room};
ghost use Rattle.row.specs.Limiting.{no_limits, limited};
ghost use Rattle.totals.specs.Totals.{kind_total};
ghost use Rattle.row.specs.Row.{event_with, row_after, room_after as rowRoom, count_of, recount};
ghost use Rattle.tacit.specs.Creation.{CreatedIn};

use area::Reading;
use record::{Loaded, Moved};
use row::{Count, EventNumbers, Limited, Limits, RowTotals};
use session::{Answer, Kinds, Permission, Reason, Retry, Session, Settings};
use tacit::Wished;
use totals::{RowAnswer, Total, Totals};
use wishes::{Want, Written};

#[unsafe(no_mangle)]
pub extern "C" fn tacit_initialization(lent: &mut [u8], area: &[u8]) -> Answer
    ensures { Carried (step (decoded lent.old) (Initialization area.now all_applications)) lent.old result lent.new }
{
    tacit::tacit_initialization(lent, area)
}

#[unsafe(no_mangle)]
pub extern "C" fn tacit_capability(lent: &mut [u8], area: &[u8]) -> Answer
    ensures { Carried (step (decoded lent.old) (Capability area.now)) lent.old result lent.new }
{
    tacit::tacit_capability(lent, area)
}

#[unsafe(no_mangle)]
pub extern "C" fn tacit_local_change(
    lent: &mut [u8],
    ta_id: u32,
    on: bool,
    room: &mut [u8],
) -> Answer
    ensures carried { Carried (step (decoded lent.old) (LocalChange ta_id on (length room.old))) lent.old result lent.new }
    ensures room_after { room.new ≡ room_after (decoded lent.old) (LocalChange ta_id on (length room.old)) room.old }
{
    tacit::tacit_local_change(lent, ta_id, on, room)
}

#[unsafe(no_mangle)]
pub extern "C" fn tacit_wish(
    lent: &mut [u8],
    wishes: u32,
    app: u32,
    disable: bool,
    room: &mut [u8],
) -> Wished
    ensures carried { Carried (step (decoded lent.old) (Wish wishes app disable (length room.old))) lent.old result.answer lent.new }
    ensures wishes_value { result.wishes ≡ wishes_after wishes app disable result.answer.refusal }
    ensures room_after { room.new ≡ room_after (decoded lent.old) (Wish wishes app disable (length room.old)) room.old }
{
    tacit::tacit_wish(lent, wishes, app, disable, room)
}

#[unsafe(no_mangle)]
pub extern "C" fn tacit_mismatch(lent: &mut [u8]) -> Answer
    ensures { Carried (step (decoded lent.old) Mismatch) lent.old result lent.new }
{
    tacit::tacit_mismatch(lent)
}

#[unsafe(no_mangle)]
pub extern "C" fn tacit_hello(lent: &mut [u8], number: u32) -> Answer
    ensures { Carried (step (decoded lent.old) (Hello number)) lent.old result lent.new }
{
    tacit::tacit_hello(lent, number)
}

#[unsafe(no_mangle)]
pub extern "C" fn tacit_closed(lent: &mut [u8]) -> Answer
    ensures { Carried (step (decoded lent.old) Closed) lent.old result lent.new }
{
    tacit::tacit_closed(lent)
}

#[unsafe(no_mangle)]
pub extern "C" fn tacit_create(lent: &mut [u8], settings: Settings) -> u8
    ensures { CreatedIn (created settings) lent.old result lent.new }
{
    tacit::tacit_create(lent, settings)
}

#[unsafe(no_mangle)]
pub extern "C" fn tacit_read(area: &[u8]) -> Reading
    ensures { result ≡ read_area area.now }
{
    tacit::tacit_read(area)
}

#[unsafe(no_mangle)]
pub extern "C" fn tacit_permitted(lent: &[u8], kind: u32) -> Permission
    ensures { result ≡ permission (decoded lent.now) kind }
{
    tacit::tacit_permitted(lent, kind)
}

#[unsafe(no_mangle)]
pub extern "C" fn tacit_permitted_kinds(lent: &[u8]) -> Kinds
    ensures { result ≡ permitted_kinds (decoded lent.now) }
{
    tacit::tacit_permitted_kinds(lent)
}

#[unsafe(no_mangle)]
pub extern "C" fn tacit_why_not(lent: &[u8], kind: u32) -> Reason
    ensures { result ≡ why_not (decoded lent.now) kind }
{
    tacit::tacit_why_not(lent, kind)
}

#[unsafe(no_mangle)]
pub extern "C" fn tacit_wish_sac(wishes: u32, room: &mut [u8]) -> Written
    ensures { (result ≡ wish_sac wishes (length room.old)) × (room.new ≡ sac_room wishes room.old) }
{
    tacit::tacit_wish_sac(wishes, room)
}

#[unsafe(no_mangle)]
pub extern "C" fn tacit_wanted(wishes: u32, kind: u32) -> Want
    ensures { result ≡ wanted wishes kind }
{
    tacit::tacit_wanted(wishes, kind)
}

#[unsafe(no_mangle)]
pub extern "C" fn tacit_retry_interval(lent: &[u8]) -> Retry
    ensures { result ≡ retry_interval (decoded lent.now) }
{
    tacit::tacit_retry_interval(lent)
}

#[unsafe(no_mangle)]
pub extern "C" fn tacit_sound(lent: &[u8]) -> bool
    ensures { result ≡ sound (decoded lent.now) }
{
    tacit::tacit_sound(lent)
}

#[unsafe(no_mangle)]
pub extern "C" fn tacit_load(lent: &[u8]) -> Loaded
    ensures { result ≡ load lent.now }
{
    tacit::tacit_load(lent)
}

#[unsafe(no_mangle)]
pub extern "C" fn tacit_store(session: Session, lent: &mut [u8]) -> u8
    ensures { (result ≡ store_refusal session lent.old) × (lent.new ≡ store_octets session lent.old) }
{
    tacit::tacit_store(session, lent)
}

#[unsafe(no_mangle)]
pub extern "C" fn tacit_forward(kind1: &[u8], kind2: &mut [u8]) -> Moved
    ensures { (result ≡ forward kind1.now kind2.old) × (kind2.new ≡ forward_room kind1.now kind2.old) }
{
    tacit::tacit_forward(kind1, kind2)
}

#[unsafe(no_mangle)]
pub extern "C" fn tacit_back(kind2: &[u8], kind1: &mut [u8]) -> u8
    ensures { (result ≡ back_refusal kind2.now kind1.old) × (kind1.new ≡ back_room kind2.now kind1.old) }
{
    tacit::tacit_back(kind2, kind1)
}

#[unsafe(no_mangle)]
pub extern "C" fn tacit_no_limits() -> Limits
    ensures { result ≡ no_limits }
{
    tacit::tacit_no_limits()
}

#[unsafe(no_mangle)]
pub extern "C" fn tacit_set_limit(limits: Limits, ta_id: u32, limit: u32) -> Limited
    ensures { result ≡ limited limits ta_id limit }
{
    tacit::tacit_set_limit(limits, ta_id, limit)
}

#[unsafe(no_mangle)]
pub extern "C" fn tacit_row_count(row: &[Session], ta_id: u32) -> Count
    ensures { result ≡ count_of row.now ta_id }
{
    tacit::tacit_row_count(row, ta_id)
}

#[unsafe(no_mangle)]
pub extern "C" fn tacit_kind_total(totals: Totals, kind: u32) -> Total
    ensures { result ≡ kind_total totals kind }
{
    tacit::tacit_kind_total(totals, kind)
}

#[unsafe(no_mangle)]
pub extern "C" fn tacit_recount(row: &[Session]) -> RowTotals
    ensures { result ≡ recount row.now }
{
    tacit::tacit_recount(row)
}

#[unsafe(no_mangle)]
pub extern "C" fn tacit_row_event(
    row: &mut [Session],
    at: usize,
    event: EventNumbers,
    limits: Limits,
    totals: Totals,
    area: &[u8],
    room: &mut [u8],
) -> RowAnswer
    ensures { (result ≡ (event_with row.old at event limits totals area.now (length room.old)).answer) × (row.new ≡ row_after row.old at event limits totals area.now (length room.old)) × (room.new ≡ rowRoom row.old at event limits totals area.now room.old) }
{
    tacit::tacit_row_event(row, at, event, limits, totals, area, room)
}
