#![tactic(auto, unfolding(choice::specs::Pick::pick))]
// Our wishes: the Apps of whose kind we want no bindings. They stand beside the session and are handed in as C keeps them.
ghost use Rattle.std.specs.Prelude.{◌≡◌, true, length, Ok, Err};
ghost use Rattle.choice.specs.Pick.{pick};
ghost use Rattle.refusals.specs.Refusals.{not_refused};
ghost use Rattle.refusals.specs.declared.Refusal.TheVariants.{NotSound};
ghost use Rattle.wishes.specs.Wishes.{sound_wishes, wishes_after, want_of, wanted, written_of, wish_sac, sac_room};

use kinds::SacApp;
use refusals::Refusal;
use sets::Numbered;

/// Whether an arriving binding of a kind is wanted, as C has it: the refusal's number, or 0 and 1 for wanted.
// C's structs: a refusal's number beside what is answered.
#[repr(C)]
#[derive(Clone, Copy)]
pub struct Want {
    pub refusal: u8,
    pub wanted: u8,
}

// Each of C's answers is made by an impl of its own: a trait for the `match` would need two functions of each in place of this one.
impl From<Result<bool, Refusal>> for Want {
    ghost from_gives = { λ answer want. want ≡ want_of answer };

    fn from(answer: Result<bool, Refusal>) -> Want {
        match answer {
            Ok(wanted) => Want {
                refusal: refusals::NOT_REFUSED,
                wanted: wanted as u8,
            },
            Err(refusal) => Want {
                refusal: refusal.into(),
                wanted: 0,
            },
        }
    }
}

/// How many octets were written, as C has it: the refusal's number, or 0 and the count.
#[repr(C)]
#[derive(Clone, Copy)]
pub struct Written {
    pub refusal: u8,
    pub written: u16,
}

impl From<Result<u16, Refusal>> for Written {
    ghost from_gives = { λ answer told. told ≡ written_of answer };

    fn from(answer: Result<u16, Refusal>) -> Written {
        match answer {
            Ok(written) => Written {
                refusal: refusals::NOT_REFUSED,
                written,
            },
            Err(refusal) => Written {
                refusal: refusal.into(),
                written: 0,
            },
        }
    }
}

// Sets of Apps 1 to 4 are below this.
const APPS_LIMIT: u32 = 1 << SacApp::COUNT;

/// Whether no bit is beyond the four Apps: App n has bit n - 1.
#[tactic(auto, unfolding(choice::specs::Pick::pick, crate::specs::Wishes::sound_wishes, sets::specs::Set::below))]
pub fn sound(wishes: u32) -> bool
    ensures { result ≡ sound_wishes wishes }
{
    wishes < APPS_LIMIT
}

// Sound wishes as a set of Apps.
#[tactic(auto, using(crate::proofs::Few::sound_few), unfolding(choice::specs::Pick::pick))]
fn apps(wishes: u32) -> Result<u8, Refusal>
    ensures { result ≡ pick (sound_wishes wishes) (Ok wishes) (Err NotSound) }
{
    if sound(wishes) {
        return Ok(wishes as u8);
    }
    Err(Refusal::NotSound)
}

// The refusal by its number: docs/ARCHITECTURE.md names this function, and the number is the field of C's `Answer`.
/// The wishes after one about an App, which answered with this refusal, 0 for none: refused, they stay as they were.
#[tactic(auto, using(crate::proofs::Few::sound_few), unfolding(choice::specs::Pick::pick, crate::specs::Wishes::wishes_after))]
pub fn after(wishes: u32, app: SacApp, disable: bool, refusal: u8) -> u32
    requires { refusal ≡ not_refused → sound_wishes wishes ≡ true }
    ensures { result ≡ wishes_after wishes app.0 disable refusal }
{
    if refusal == refusals::NOT_REFUSED {
        return app.switched(wishes as u8, disable) as u32;
    }
    wishes
}

/// Whether a binding of this kind is wanted: exactly where no wish disables it. Refused for wishes with spare bits, then for a kind over 9.
#[tactic(auto, unfolding(choice::specs::Pick::pick, crate::specs::Wishes::wanted))]
pub fn wanted(wishes: u32, kind: u32) -> Result<bool, Refusal>
    ensures { want_of result ≡ wanted wishes kind }
{
    let apps = apps(wishes)?;
    if kinds::KIND_COUNT <= kind {
        return Err(Refusal::OutOfRange);
    }
    Ok(!kinds::disables_kind(apps, kind as u16))
}

/// Writes the SAC for an Initialization (RFC 7473, section 4.2.1) over the front of the room, and answers how many octets it has: none without a wish.
/// Refused for wishes with spare bits, then for a room of fewer octets; the room then stays as it was.
#[tactic(auto, using(crate::proofs::Few::sac_short), unfolding(choice::specs::Pick::pick, crate::specs::Wishes::wish_sac, crate::specs::Wishes::sac_room))]
pub fn sac(wishes: u32, room: &mut [u8]) -> Result<u16, Refusal>
    ensures { (written_of result ≡ wish_sac wishes (length room.old)) × (room.new ≡ sac_room wishes room.old) }
{
    let apps = apps(wishes)?;
    let long = message::sac::write_sac(room, apps);
    if room.len() < long {
        return Err(Refusal::NoRoom);
    }
    Ok(long as u16)
}
