#![tactic(auto)]
// The element lists of a TAC and of a SAC, and what they make of a set. `opening` is an Initialization, else a Capability message.
ghost use Rattle.std.specs.Prelude.{◌≡◌};
ghost use Rattle.lists.specs.Met.{tac_element};
ghost use Rattle.lists.specs.Sac.{sac_element, sac_list};
ghost use Rattle.lists.specs.Tac.{tac_list};

use area::ELEMENT_LENGTH;
use kinds::{SacApp, TaId};
use sets::Numbered;

// The set after one element of a TAC: one whose identifier was met before it counts for nothing.
#[tactic(auto, unfolding(choice::specs::Pick::pick, crate::specs::Met::tac_element, kinds::specs::Kinds::is_in))]
fn tac_element(met: u16, set: u16, id: u16, on: bool) -> u16
    ensures { result ≡ tac_element met set id on }
{
    if TaId(id as u32).is_in(met) {
        return set;
    }
    TaId(id as u32).switched(set, on)
}

/// The set of applications after the elements of a TAC's value, its first octet included. The known identifiers met are remembered: of equal ones the first decides.
#[tactic(auto, unfolding(choice::specs::Pick::pick, crate::specs::Tac::after, crate::specs::Tac::tac_list))]
#[inline(never)]
pub fn tac_list(value: &[u8], opening: bool, listed: u16) -> u16
    ensures { result ≡ tac_list value.now opening listed }
{
    let Some((_, octets)) = value.split_first() else {
        return listed;
    };
    let (elements, _) = octets.as_chunks::<ELEMENT_LENGTH>();
    let mut set = listed;
    let mut met: u16 = 0;
    for &[high, low, third, _] in elements {
        let id = u16::from_be_bytes([high, low]);
        if !TaId(id as u32).is_known() {
            continue;
        }
        let on = opening | (octets::TOP_BIT <= third);
        set = tac_element(met, set, id, on);
        met = TaId(id as u32).switched(met, true);
    }
    set
}

// One element of a SAC.
#[tactic(auto, unfolding(choice::specs::Pick::pick, crate::specs::Sac::sac_element))]
fn sac_element(opening: bool, disabled: u8, x: u8) -> u8
    ensures { result ≡ sac_element opening disabled x }
{
    let app = (x / 16 % 8) as u32;
    if octets::TOP_BIT <= x {
        return SacApp(app).switched(disabled, true);
    }
    if opening {
        return disabled;
    }
    SacApp(app).switched(disabled, false)
}

/// The disabled Apps after the elements of a SAC's value, its first octet included, in order.
#[tactic(auto, unfolding(choice::specs::Pick::pick, crate::specs::Sac::sac_list, crate::specs::Sac::sac_after))]
#[inline(never)]
pub fn sac_list(value: &[u8], opening: bool, disabled: u8) -> u8
    ensures { result ≡ sac_list value.now opening disabled }
{
    let Some((_, elements)) = value.split_first() else {
        return disabled;
    };
    let mut set = disabled;
    for &x in elements {
        set = sac_element(opening, set, x);
    }
    set
}
