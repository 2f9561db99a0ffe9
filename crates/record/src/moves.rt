// The stored record of kind 1, and the moves between it and kind 2, which every other call takes.
ghost use Rattle.std.specs.Prelude.{◌≡◌, length};
ghost use Rattle.refusals.specs.Refusals.{number_told};
ghost use Rattle.record.specs.Record.{kind1_length, encoded_kind1, decoded_kind1};
ghost use Rattle.record.specs.Moves.{loses_by_capabilities, holds_none, forward, forward_room, moved_of, back_refusal, back_room};

use refusals::Refusal;
use session::{Session, SoundSession};

// How many octets a record of kind 1 has, and what its first two fields hold.
const KIND1_LENGTH: usize = 22;

const KIND1_LENGTH_FIELD: u16 = 20;

const KIND1_FIELD: u16 = 1;

// The session of a record of kind 1, where neither end holds a capability; of any other octets one that is not sound.
#[tactic(auto, unfolding(choice::specs::Pick::pick, crate::specs::Record::decoded_kind1))]
fn decoded_kind1(lent: &[u8]) -> Session
    ensures { result ≡ decoded_kind1 lent.now }
{
    if lent.len() == KIND1_LENGTH {
        if crate::headed(lent, KIND1_LENGTH_FIELD, KIND1_FIELD) {
            return crate::fields(lent, 0, 0);
        }
        return Session::none();
    }
    Session::none()
}

// Puts a session into a room of 22 octets: its record, with the head of kind 1 and without the last two octets.
#[tactic(auto, unfolding(choice::specs::Pick::pick, octets::specs::Octets::over))]
fn put_kind1(s: Session, room: &mut [u8])
    requires { length room.old ≡ kind1_length }
    ensures { room.new ≡ encoded_kind1 s }
{
    let mut octets = crate::encoded(s);
    octets[0] = KIND1_LENGTH_FIELD as u8;
    octets[2] = KIND1_FIELD as u8;
    octets::put(room, &octets[..KIND1_LENGTH]);
}

// The kinds that the base's rule permits and capabilities take away.
#[tactic(auto, unfolding(choice::specs::Pick::pick, crate::specs::Moves::loses_by_capabilities))]
fn loses_by_capabilities(s: Session) -> u16
    ensures { result ≡ loses_by_capabilities s }
{
    sets::minus(s.permitted_by_base(), s.permitted())
}

// Neither end holds a capability.
#[tactic(auto, unfolding(choice::specs::Pick::pick, sets::specs::Set::empty))]
fn holds_none(s: Session) -> bool
    ensures { result ≡ holds_none s }
{
    (s.ours == 0) & (s.theirs == 0)
}

// Moves a record of kind 1 into a room of 24 octets, and answers the kinds lost, or 10.
#[tactic(auto, unfolding(choice::specs::Pick::pick, crate::specs::Moves::forward, crate::specs::Moves::forward_room))]
pub fn forward(kind1: &[u8], kind2: &mut [u8]) -> Result<u16, Refusal>
    ensures { (moved_of result ≡ forward kind1.now kind2.old) × (kind2.new ≡ forward_room kind1.now kind2.old) }
{
    let s = decoded_kind1(kind1);
    crate::store(s, kind2)?;
    Ok(loses_by_capabilities(s))
}

// Moves a record into a room of 22 octets, or answers 10, or 13 where it has a capability to lose.
#[tactic(auto, unfolding(choice::specs::Pick::pick, crate::specs::Moves::back_refusal, crate::specs::Moves::back_room))]
pub fn back(kind2: &[u8], kind1: &mut [u8]) -> Result<(), Refusal>
    ensures { (number_told result ≡ back_refusal kind2.now kind1.old) × (kind1.new ≡ back_room kind2.now kind1.old) }
{
    let s = crate::decoded(kind2);
    SoundSession::try_from(s)?;
    if kind1.len() != KIND1_LENGTH {
        return Err(Refusal::NotSound);
    }
    if !holds_none(s) {
        return Err(Refusal::CapabilitiesHeld);
    }
    put_kind1(s, kind1);
    Ok(())
}
