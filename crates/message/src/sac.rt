// The SAC for an Initialization, from its elements.
ghost use Rattle.std.specs.Prelude.{◌≡◌, ◌+◌, ◌<◌, ◌≤◌, length};
ghost use Rattle.kinds.specs.Kinds.{app_count};
ghost use Rattle.octets.specs.Octets.{over};
ghost use Rattle.area.specs.Tlvs.{tlv_octets};
ghost use Rattle.message.specs.Sac.{app_element, wish_element, wish_elements, wish_tlv, sac_octets};

use kinds::SacApp;
use sets::Numbered;

// An element of a SAC: D and the App.
#[tactic(auto, unfolding(choice::specs::Pick::pick))]
pub(crate) fn app_element(n: u32, disable: bool) -> u8
    ensures { result ≡ app_element n disable }
{
    let app = (n % 8 * 16) as u8;
    if disable {
        return octets::TOP_BIT + app;
    }
    app
}

// How many elements place i of the wishes has: one where its App is wished disabled.
#[tactic(auto, unfolding(choice::specs::Pick::pick))]
fn element_count(wishes: u8, i: u32) -> usize
    requires { i < app_count }
    ensures { result ≡ length (wish_element wishes i) }
{
    if sets::has(wishes as u16, i as u16) {
        return 1;
    }
    0
}

// How many there are in all.
#[tactic(auto, unfolding(choice::specs::Pick::pick, crate::specs::Sac::wish_elements))]
fn elements_count(wishes: u8) -> usize
    ensures { result ≡ length (wish_elements wishes app_count) }
{
    let mut n = 0;
    for i in 0..SacApp::COUNT {
        n += element_count(wishes, i);
    }
    n
}

// Puts all of them over the front of a room that they fit, each straight into it.
// Not gathered in an array: the copy of 1 to 4 octets from it becomes a call of memcpy, and the library calls nothing that is not in it.
#[tactic(auto, unfolding(choice::specs::Pick::pick, crate::specs::Sac::wish_elements))]
fn put_elements(room: &mut [u8], wishes: u8)
    requires { length (wish_elements wishes app_count) ≤ length room.old }
    ensures { room.new ≡ over (wish_elements wishes app_count) room.old }
{
    // `n` counts what was put: a zip of the room with a filter over the Apps says no more.
    let mut n = 0;
    for i in 0..SacApp::COUNT {
        if sets::has(wishes as u16, i as u16) {
            room[n] = app_element(i + 1, true);
            n += 1;
        }
    }
}

// How many is handed in: `write_sac` has counted them before it tries the room.
// Puts the SAC, of so many elements, over the front of a room that it fits: its head, S, the elements.
fn put_sac(room: &mut [u8], n: usize, wishes: u8)
    requires { (n ≡ length (wish_elements wishes app_count)) × (5 + n ≤ length room.old) }
    ensures { room.new ≡ over (tlv_octets (wish_tlv wishes)) room.old }
{
    let head = crate::tlv_head(area::SAC, 1 + n);
    let s = [octets::top_bit(true)];
    octets::put(room, &head);
    octets::put_at(room, area::HEAD_LENGTH, &s);
    put_elements(&mut room[area::HEAD_LENGTH + 1..], wishes);
}

/// The SAC for these wishes over the front of the room; without room for all of it nothing is written. How many octets it has: none where no App is
/// wished disabled.
#[tactic(auto, unfolding(choice::specs::Pick::pick, sets::specs::Set::empty, crate::specs::Sac::sac_for, octets::specs::Octets::over))]
pub fn write_sac(room: &mut [u8], wishes: u8) -> usize
    ensures { (result ≡ length (sac_octets wishes)) × (room.new ≡ over (sac_octets wishes) room.old) }
{
    if wishes == 0 {
        return 0;
    }
    let n = elements_count(wishes);
    let whole = area::HEAD_LENGTH + 1 + n;
    if whole <= room.len() {
        put_sac(room, n, wishes);
    }
    whole
}
