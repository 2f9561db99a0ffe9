#![tactic(auto)]
// Octets put over the front of lent ones, the top bit of an octet, and the numbers that octets of a record hold.
ghost use Rattle.std.specs.Prelude.{◌≡◌, ◌+◌, ◌<◌, ◌≤◌, length, take, drop};
ghost use Rattle.octets.specs.Octets.{le_at16, le_at32, top_bit, over, over_at};

// Puts `written` over the front of the room; what lies beyond stays, and without enough room all of it does.
#[tactic(auto, unfolding(choice::specs::Pick::pick, crate::specs::Octets::over))]
pub fn put(room: &mut [u8], written: &[u8])
    ensures { room.new ≡ over written.now room.old }
{
    if written.len() <= room.len() {
        room[..written.len()].copy_from_slice(written);
    }
}

// The same from `at` on; what lies before stays too.
#[tactic(auto, using(crate::proofs::Front::behind))]
pub fn put_at(room: &mut [u8], at: usize, written: &[u8])
    requires { at ≤ length room.old }
    ensures { room.new ≡ over_at at written.now room.old }
{
    put(&mut room[at..], written);
}

pub const TOP_BIT: u8 = 0x80;

// An octet with its top bit alone, or with none.
#[tactic(auto, unfolding(choice::specs::Pick::pick))]
pub fn top_bit(on: bool) -> u8
    ensures { result ≡ top_bit on }
{
    if on { TOP_BIT } else { 0 }
}

// Octets and a place, not the octets from there on, and a function for each width: docs/PROMISES.md names `put_at`, `read16` and `read32`.
// N octets from a place on.
fn octets_at<const N: usize>(octets: &[u8], at: usize) -> [u8; N]
    requires { at + N ≤ length octets.now }
    ensures { result ≡ take N (drop at octets.now) }
{
    *octets[at..].first_chunk::<N>().unwrap()
}

// Two octets, least significant first.
pub fn read16(octets: &[u8], at: usize) -> u16
    requires { at + 1 < length octets.now }
    ensures { result ≡ le_at16 octets.now at }
{
    u16::from_le_bytes(octets_at(octets, at))
}

// Four octets, least significant first.
pub fn read32(octets: &[u8], at: usize) -> u32
    requires { at + 3 < length octets.now }
    ensures { result ≡ le_at32 octets.now at }
{
    u32::from_le_bytes(octets_at(octets, at))
}
