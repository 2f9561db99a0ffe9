#![tactic(auto)]
// The stored record of kind 2, and the session that it holds; the kind before it is in moves.rt.
ghost use Rattle.std.specs.Prelude.{◌≡◌, ◌≤◌, length};
ghost use Rattle.refusals.specs.Refusals.{number_told};
ghost use Rattle.record.specs.Carried.{Carried};
ghost use Rattle.record.specs.Loaded.{load, loaded_of, store_refusal, store_octets};
ghost use Rattle.record.specs.Moves.{moved_of};
ghost use Rattle.record.specs.Record.{kind1_length, encoded, stored_in, headed, fields, decoded};

use refusals::Refusal;
use session::{After, Answer, Session, SoundSession};

pub mod moves;

// A session read from a record, in numbers as C has it.
#[repr(C)]
#[derive(Clone, Copy)]
pub struct Loaded {
    pub refusal: u8,
    pub session: Session,
}

// Each of C's answers is made by an impl of its own: a trait for the `match` would need two functions of each in place of this one.
impl From<Result<Session, Refusal>> for Loaded {
    ghost from_gives = { λ r loaded. loaded ≡ loaded_of r };

    fn from(session: Result<Session, Refusal>) -> Loaded {
        match session {
            Ok(session) => Loaded {
                refusal: refusals::NOT_REFUSED,
                session,
            },
            Err(refusal) => Loaded {
                refusal: refusal.into(),
                session: Session::none(),
            },
        }
    }
}

// What a move forward answers, in numbers as C has it.
#[repr(C)]
#[derive(Clone, Copy)]
pub struct Moved {
    pub refusal: u8,
    pub lost: u16,
}

impl From<Result<u16, Refusal>> for Moved {
    ghost from_gives = { λ r moved. moved ≡ moved_of r };

    fn from(lost: Result<u16, Refusal>) -> Moved {
        match lost {
            Ok(lost) => Moved {
                refusal: refusals::NOT_REFUSED,
                lost,
            },
            Err(refusal) => Moved {
                refusal: refusal.into(),
                lost: 0,
            },
        }
    }
}

// How many octets a record has.
pub const LENGTH: usize = 24;

// What the first two fields of a record hold.
const LENGTH_FIELD: u16 = 22;

const KIND_FIELD: u16 = 2;

pub(crate) fn encoded(s: Session) -> [u8; LENGTH]
    ensures { result ≡ encoded s }
{
    let [long_0, long_1] = LENGTH_FIELD.to_le_bytes();
    let [kind_0, kind_1] = KIND_FIELD.to_le_bytes();
    let [enabled_0, enabled_1] = s.enabled.to_le_bytes();
    let [listed_0, listed_1] = s.listed.to_le_bytes();
    let [protects_0, protects_1] = s.protects.to_le_bytes();
    let [hello_0, hello_1, hello_2, hello_3] = s.hello.to_le_bytes();
    let [next_0, next_1, next_2, next_3] = s.next.to_le_bytes();
    [
        long_0, long_1, kind_0, kind_1, s.state, s.flags, enabled_0, enabled_1, listed_0, listed_1,
        protects_0, protects_1, s.disabled, 0, hello_0, hello_1, hello_2, hello_3, next_0, next_1,
        next_2, next_3, s.ours, s.theirs,
    ]
}

// Stores the session in a record of exactly 24 octets; any other stays as it was.
#[tactic(auto, unfolding(choice::specs::Pick::pick, crate::specs::Record::stored_in, octets::specs::Octets::over))]
pub fn stored_in(s: Session, lent: &mut [u8])
    ensures { lent.new ≡ stored_in s lent.old }
{
    if lent.len() != LENGTH {
        return;
    }
    let octets = encoded(s);
    octets::put(lent, &octets);
}

// Length, kind and the zero octet as they must be. The two fields are read as one number, the length in its low half.
#[tactic(auto, unfolding(choice::specs::Pick::pick, crate::specs::Record::headed))]
pub(crate) fn headed(lent: &[u8], long: u16, kind: u16) -> bool
    requires { kind1_length ≤ length lent.now }
    ensures { result ≡ headed long kind lent.now }
{
    // By arithmetic: octets of both numbers and a number of those take three lines.
    let head = long as u32 + 65536 * (kind as u32);
    (octets::read32(lent, 0) == head) & (lent[13] == 0)
}

// By place: an array pattern was tried together with the enum of which `decoded` tells.
// The fields that both kinds have, with the capabilities of both ends.
pub(crate) fn fields(lent: &[u8], ours: u8, theirs: u8) -> Session
    requires { kind1_length ≤ length lent.now }
    ensures { result ≡ fields lent.now ours theirs }
{
    let enabled = octets::read16(lent, 6);
    let listed = octets::read16(lent, 8);
    let protects = octets::read16(lent, 10);
    let hello = octets::read32(lent, 14);
    let next = octets::read32(lent, 18);
    Session {
        state: lent[4],
        flags: lent[5],
        disabled: lent[12],
        enabled,
        listed,
        protects,
        ours,
        theirs,
        hello,
        next,
    }
}

// Kind 1 is read and put in moves.rt by functions of its own. One function for both over an enum of the kinds, with an Option and an array pattern, takes
// a Capability message from 403 instructions to 415 and a local change from 295 to 309.
// No Option: docs/PROMISES.md names it, and `ReadBack` and `StoredBack` speak of the session that it answers.
// The session of a record. One with another length, kind or zero octet gives a session that is not sound, so every event refuses it with 10.
#[tactic(auto, unfolding(choice::specs::Pick::pick, crate::specs::Record::decoded))]
pub fn decoded(lent: &[u8]) -> Session
    ensures { result ≡ decoded lent.now }
{
    if lent.len() == LENGTH {
        if headed(lent, LENGTH_FIELD, KIND_FIELD) {
            return fields(lent, lent[22], lent[23]);
        }
        return Session::none();
    }
    Session::none()
}

// The refusal by its number, which is what C's `Answer` has.
// Stores the session after an event, unless it was refused, and answers.
#[tactic(auto, unfolding(choice::specs::Pick::pick, crate::specs::Carried::record_after))]
pub fn carry(lent: &mut [u8], after: After) -> Answer
    ensures { Carried after lent.old result lent.new }
{
    if after.answer.refusal == refusals::NOT_REFUSED {
        stored_in(after.session, lent);
        return after.answer;
    }
    after.answer
}

// The session of a sound record; of any other, 10.
#[tactic(auto, unfolding(choice::specs::Pick::pick, crate::specs::Loaded::load))]
pub fn load(lent: &[u8]) -> Result<Session, Refusal>
    ensures { loaded_of result ≡ load lent.now }
{
    let session = decoded(lent);
    SoundSession::try_from(session)?;
    Ok(session)
}

// Stores a sound session in a record of 24 octets, or answers 10. Both tests are one for speed: by `?` and without the hint it takes 83
// instructions for 74, and a move forward 137 for 92.
#[tactic(auto, unfolding(choice::specs::Pick::pick, crate::specs::Loaded::store_refusal, crate::specs::Loaded::store_octets, crate::specs::Record::stored_in))]
#[inline(always)]
pub fn store(s: Session, lent: &mut [u8]) -> Result<(), Refusal>
    ensures { (number_told result ≡ store_refusal s lent.old) × (lent.new ≡ store_octets s lent.old) }
{
    if !(s.sound() & (lent.len() == LENGTH)) {
        return Err(Refusal::NotSound);
    }
    stored_in(s, lent);
    Ok(())
}
