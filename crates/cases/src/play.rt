// Each call, made as C makes it, and the words that follow its number in its line.
ghost use Rattle.std.specs.Prelude.{◌≤◌};

use crate::calls::Call;
use crate::lines::{Octets, Part, Told};
use area::Reading;
use session::{Answer, Session};
use std::io;

// Memory is fixed: no room has more octets.
const MOST_ROOM: usize = 40;

// How long the room of a call is: as it asks, up to the most.
fn room_length(asked: u8) -> usize
    ensures { result ≤ 40 }
{
    usize::from(asked).min(MOST_ROOM)
}

// An event that lends no room.
fn event(rt: &impl Print, answer: Answer, lent: &[u8]) -> io::Result<()> {
    print!(rt; "{} {}", Told(answer), Octets(lent))
}

fn read(rt: &impl Print, r: Reading) -> io::Result<()> {
    print!(rt;
        "{:x} {:x} {:x} {:x} {} {}",
        r.refusal,
        u8::from(r.dynamic),
        r.capabilities,
        r.holding,
        Part(r.tac),
        Part(r.sac)
    )
}

fn loaded(rt: &impl Print, refusal: u8, s: Session) -> io::Result<()> {
    print!(rt;
        "{refusal:x} {:x} {:x} {:x} {:x} {:x} {:x} {:x} {:x} {:x} {:x}",
        s.state,
        s.flags,
        s.disabled,
        s.enabled,
        s.listed,
        s.protects,
        s.ours,
        s.theirs,
        s.hello,
        s.next
    )
}

/// Plays one call over the record.
pub(crate) fn one(
    rt: &impl Print,
    lent: &mut [u8; record::LENGTH],
    call: Call<'_>,
) -> io::Result<()> {
    let mut octets = [0xEE; MOST_ROOM];
    match call {
        Call::Create(settings) => {
            let refusal = tacit::tacit_create(lent, settings);
            print!(rt; "{refusal:x} {}", Octets(lent))
        }
        Call::Initialization(area) => event(rt, tacit::tacit_initialization(lent, area), lent),
        Call::Capability(area) => event(rt, tacit::tacit_capability(lent, area), lent),
        Call::LocalChange { ta_id, on, room } => {
            let room = &mut octets[..room_length(room)];
            let answer = tacit::tacit_local_change(lent, ta_id, on, room);
            print!(rt; "{} {} {}", Told(answer), Octets(lent), Octets(room))
        }
        Call::Mismatch => event(rt, tacit::tacit_mismatch(lent), lent),
        Call::Hello(number) => event(rt, tacit::tacit_hello(lent, number), lent),
        Call::Closed => event(rt, tacit::tacit_closed(lent), lent),
        Call::Permitted(kind) => {
            let p = tacit::tacit_permitted(lent, kind);
            print!(rt; "{:x} {:x}", p.refusal, p.permitted)
        }
        Call::PermittedKinds => {
            let k = tacit::tacit_permitted_kinds(lent);
            print!(rt; "{:x} {:x}", k.refusal, k.kinds)
        }
        Call::RetryInterval => {
            let r = tacit::tacit_retry_interval(lent);
            print!(rt; "{:x} {:x}", r.refusal, r.interval)
        }
        Call::Sound => print!(rt; "{:x}", u8::from(tacit::tacit_sound(lent))),
        Call::Read(area) => read(rt, tacit::tacit_read(area)),
        Call::SetRecord(record) => {
            *lent = record;
            print!(rt; "{}", Octets(lent))
        }
        Call::NoLimits => print!(rt; "{}", Octets(&tacit::tacit_no_limits().each)),
        Call::SetLimit {
            limits,
            ta_id,
            limit,
        } => {
            let after = tacit::tacit_set_limit(limits, ta_id, limit);
            print!(rt; "{:x} {}", after.refusal, Octets(&after.limits.each))
        }
        Call::Load => {
            let l = tacit::tacit_load(lent);
            loaded(rt, l.refusal, l.session)
        }
        Call::Store { session, room } => {
            let room = &mut octets[..room_length(room)];
            let refusal = tacit::tacit_store(session, room);
            print!(rt; "{refusal:x} {}", Octets(room))
        }
        Call::Wish {
            wishes,
            app,
            disable,
            room,
        } => {
            let room = &mut octets[..room_length(room)];
            let after = tacit::tacit_wish(lent, wishes, app, disable, room);
            print!(rt;
                "{} {:x} {} {}",
                Told(after.answer),
                after.wishes,
                Octets(lent),
                Octets(room)
            )
        }
        Call::WishSac { wishes, room } => {
            let room = &mut octets[..room_length(room)];
            let w = tacit::tacit_wish_sac(wishes, room);
            print!(rt; "{:x} {:x} {}", w.refusal, w.written, Octets(room))
        }
        Call::Wanted { wishes, kind } => {
            let w = tacit::tacit_wanted(wishes, kind);
            print!(rt; "{:x} {:x}", w.refusal, w.wanted)
        }
        Call::KindTotal { totals, kind } => {
            let t = tacit::tacit_kind_total(totals, kind);
            print!(rt; "{:x} {:x}", t.refusal, t.total)
        }
        // The record is the room that the octets of the call are moved into.
        Call::Forward(kind1) => {
            let moved = tacit::tacit_forward(kind1, lent);
            print!(rt; "{:x} {:x} {}", moved.refusal, moved.lost, Octets(lent))
        }
        Call::Back { room } => {
            let room = &mut octets[..room_length(room)];
            let refusal = tacit::tacit_back(lent, room);
            print!(rt; "{refusal:x} {}", Octets(room))
        }
    }
}
