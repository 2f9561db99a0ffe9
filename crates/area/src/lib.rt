#![tactic(auto)]
// Reads a parameter area: TLVs one after another, most significant octet first.
ghost use Rattle.std.specs.Prelude.{◌≡◌, true, ◌+◌, ◌≤◌, ◌<◌, length};
ghost use Rattle.refusals.specs.Refusals.{not_refused};
ghost use Rattle.area.specs.Found.{refused, told, reading_of, capability_stood, with_capability};
ghost use Rattle.area.specs.Area.{area_most, type_of, at16, not_one, take_tlv, in_range, by_type, tlv_at, read_area, part, s_bit};

use kinds::Capability;
use refusals::Refusal;
use sets::Numbered;

/// A part of an area: where it starts, and how many octets it has.
// C's structs have numbers for none and for a refusal. An absent part is a length of 0 there and in `Found`: its octets are read like those of one that is empty.
#[repr(C)]
#[derive(Clone, Copy)]
pub struct Span {
    pub start: u16,
    pub len: u16,
}

impl Span {
    const NONE: Span = Span { start: 0, len: 0 };
}

/// What was found in an area that is not refused. A TAC has one octet at the least and a SAC two, so a part without octets is an absent one. Of the
/// capabilities, capability n at bit n - 1, those that are present, and of these the ones with S = 1.
#[derive(Clone, Copy)]
pub struct Found {
    pub dynamic: bool,
    pub capabilities: u8,
    pub holding: u8,
    pub tac: Span,
    pub sac: Span,
}

/// What reading an area comes to, in numbers as C has it: the refusal's and nothing found, or 0 and what was found.
#[repr(C)]
#[derive(Clone, Copy)]
pub struct Reading {
    pub refusal: u8,
    pub dynamic: bool,
    pub capabilities: u8,
    pub holding: u8,
    pub tac: Span,
    pub sac: Span,
}

const AREA_MOST: usize = 4096;

/// How many octets stand before a TLV's value: U, F, type, length.
pub const HEAD_LENGTH: usize = 4;

/// U is the highest of the first 16 bits, and the type is the lower 14 of them.
pub const U_BIT: usize = 0x8000;

const TYPE_COUNT: usize = 0x4000;

/// How many octets an element of a TAC has.
pub const ELEMENT_LENGTH: usize = 4;

// Constants and no enum: a type is 14 bits, and of one that is none of these the number is asked (`in_range`).
// The types that we read.
/// Targeted Application Capability (RFC 8223).
pub const TAC: usize = 0x050F;

/// State Advertisement Control Capability (RFC 7473).
pub const SAC: usize = 0x050D;

const DYNAMIC: usize = 0x0506;

const P2MP: usize = 0x0508;

const MP2MP: usize = 0x0509;

const HSMP: usize = 0x0902;

// Of the other types those that are passed over whatever their U.
const PASSED_FIRST: usize = 0x0500;

const PASSED_LAST: usize = 0x05FF;

// What C is told: the one place where a refusal of an area becomes its number.
// Each of C's answers is made by an impl of its own: a trait for the `match` would need two functions of each in place of this one.
impl From<Result<Found, Refusal>> for Reading {
    ghost from_gives = { λ found reading. reading ≡ reading_of found };

    fn from(found: Result<Found, Refusal>) -> Reading {
        match found {
            Ok(f) => Reading {
                refusal: refusals::NOT_REFUSED,
                dynamic: f.dynamic,
                capabilities: f.capabilities,
                holding: f.holding,
                tac: f.tac,
                sac: f.sac,
            },
            Err(refusal) => Reading {
                refusal: refusal.into(),
                dynamic: false,
                capabilities: 0,
                holding: 0,
                tac: Span::NONE,
                sac: Span::NONE,
            },
        }
    }
}

impl Found {
    // No `Default`: what is promised is the reading before the first TLV, and a derive would promise each field's default.
    // Before the first TLV.
    fn nothing() -> Found
        ensures { told result ≡ refused not_refused }
    {
        Found {
            dynamic: false,
            capabilities: 0,
            holding: 0,
            tac: Span::NONE,
            sac: Span::NONE,
        }
    }
}

// One of our types: refused where it stood before, then where its length is wrong; else what is found with it.
#[tactic(auto, unfolding(choice::specs::Pick::pick, crate::specs::Area::take_tlv))]
#[inline(always)]
fn take_tlv(again: bool, wrong: bool, found: Found) -> Result<Found, Refusal>
    ensures { reading_of result ≡ take_tlv again wrong (told found) }
{
    if again {
        return Err(Refusal::Repeated);
    }
    if wrong {
        return Err(Refusal::BadLength);
    }
    Ok(found)
}

// Whether a type is passed over whatever its U, where it is none of ours.
fn in_range(t: usize) -> bool
    ensures { result ≡ in_range t }
{
    (PASSED_FIRST <= t) & (t <= PASSED_LAST)
}

/// S of a value: the top bit of its first octet. A value without octets has none.
#[tactic(auto, unfolding(choice::specs::Pick::pick, crate::specs::Area::s_bit))]
pub fn s_bit(value: &[u8]) -> bool
    ensures { result ≡ s_bit value.now }
{
    if value.is_empty() {
        return false;
    }
    octets::TOP_BIT <= value[0]
}

// Here and below `value` is the part that C is told, and S is read of `octets`: with S handed on in their place FRR's parameters take 161 instructions for 142.
// A capability: present, and held with S = 1.
#[inline(always)]
fn take_capability(
    capability: Capability,
    value: Span,
    octets: &[u8],
    f: Found,
) -> Result<Found, Refusal>
    ensures { reading_of result ≡ take_tlv (capability_stood capability.0 (told f)) (not_one value.len) (with_capability capability.0 value (s_bit octets.now) (told f)) }
{
    let found = Found {
        capabilities: capability.switched(f.capabilities, true),
        holding: capability.switched(f.holding, s_bit(octets)),
        ..f
    };
    take_tlv(capability.is_in(f.capabilities), value.len != 1, found)
}

// A whole TLV of a type in the range. One of ours is put into what was found, and any other is passed over.
#[tactic(auto, using(crate::proofs::Range::in_range_not_hsmp, crate::proofs::Range::in_range_passed), unfolding(choice::specs::Pick::pick, crate::specs::Area::by_type))]
#[inline(always)]
fn by_type_in_range(head: usize, value: Span, octets: &[u8], f: Found) -> Result<Found, Refusal>
    requires { in_range (type_of head) ≡ true }
    ensures { reading_of result ≡ by_type head value (s_bit octets.now) (told f) }
{
    let len = value.len as usize;
    match head % TYPE_COUNT {
        TAC => take_tlv(
            0 < f.tac.len,
            len % ELEMENT_LENGTH != 1,
            Found { tac: value, ..f },
        ),
        SAC => take_tlv(0 < f.sac.len, len < 2, Found { sac: value, ..f }),
        DYNAMIC => take_tlv(f.dynamic, len != 1, Found { dynamic: true, ..f }),
        P2MP => take_capability(Capability(Capability::P2MP), value, octets, f),
        MP2MP => take_capability(Capability(Capability::MP2MP), value, octets, f),
        _ => Ok(f),
    }
}

// A whole TLV, by its type: `head` is U, F and the type. Of ours HSMP alone lies outside the range; of the others there U decides.
#[tactic(auto, using(crate::proofs::Range::outside_not, crate::proofs::Range::outside_passed, crate::proofs::Range::outside_refused), unfolding(choice::specs::Pick::pick, crate::specs::Area::by_type))]
#[inline(always)]
fn by_type(head: usize, value: Span, octets: &[u8], f: Found) -> Result<Found, Refusal>
    ensures { reading_of result ≡ by_type head value (s_bit octets.now) (told f) }
{
    let t = head % TYPE_COUNT;
    if in_range(t) {
        return by_type_in_range(head, value, octets, f);
    }
    if t == HSMP {
        return take_capability(Capability(Capability::HSMP), value, octets, f);
    }
    if U_BIT <= head {
        return Ok(f);
    }
    Err(Refusal::UnknownType)
}

// Octets and a place, not the octets from there on: docs/PROMISES.md names it.
/// 16 bits at a place of the octets, most significant octet first.
#[tactic(auto, unfolding(choice::specs::Pick::pick, crate::specs::Area::at16))]
pub fn at16(a: &[u8], at: usize) -> usize
    requires { at + 2 ≤ length a.now }
    ensures value { result ≡ at16 a.now at }
    ensures most { result < 65536 }
{
    u16::from_be_bytes([a[at], a[at + 1]]) as usize
}

// By place and length, as C's `Span` is.
// A part within an area.
fn part_at(at: usize, len: usize) -> Span
    requires { at + len ≤ area_most }
    ensures { result ≡ record { start = at; len = len } }
{
    Span {
        start: at as u16,
        len: len as u16,
    }
}

// By place, as `found_in` goes.
// The TLV at a place, after f was found.
#[tactic(auto, unfolding(choice::specs::Pick::pick, crate::specs::Area::tlv_at))]
#[inline(always)]
fn tlv_at(a: &[u8], at: usize, f: Found) -> Result<Found, Refusal>
    requires { (at ≤ length a.now) × (length a.now ≤ area_most) }
    ensures { reading_of result ≡ tlv_at a.now at (told f) }
{
    let rest = a.len() - at;
    if rest < HEAD_LENGTH {
        return Err(Refusal::CutShort);
    }
    let len = at16(a, at + 2);
    if rest - HEAD_LENGTH < len {
        return Err(Refusal::CutShort);
    }
    let value = part_at(at + HEAD_LENGTH, len);
    by_type(at16(a, at), value, part_within(a, value), f)
}

/// What is found in a whole area, or the first refusal from the left: 1 to 5. One walk serves Initialization and Capability messages.
#[tactic(auto, using(crate::proofs::Turn::done, crate::proofs::Turn::stop, crate::proofs::Turn::onward), unfolding(crate::specs::Area::read_area, choice::specs::Pick::pick))]
#[inline(always)]
pub fn found_in(area: &[u8]) -> Result<Found, Refusal>
    ensures { reading_of result ≡ read_area area.now }
{
    if AREA_MOST < area.len() {
        return Err(Refusal::AreaTooLong);
    }
    // By place and not by the octets that are left: with `split_first_chunk` FRR's parameters take 158 instructions to read, and so 142 at most.
    let mut at = 0;
    let mut found = Found::nothing();
    while at < area.len() {
        found = tlv_at(area, at, found)?;
        at = at + HEAD_LENGTH + at16(area, at + 2);
    }
    Ok(found)
}

/// The same in numbers, as C has it.
pub fn read_area(area: &[u8]) -> Reading
    ensures { result ≡ read_area area.now }
{
    found_in(area).into()
}

/// The octets of a part that lies within the area, as the parts of a reading do.
#[tactic(auto, unfolding(choice::specs::Pick::pick, crate::specs::Area::part))]
pub fn part_within(area: &[u8], s: Span) -> &[u8]
    requires { s.start + s.len ≤ length area.now }
    ensures { result.now ≡ part area.now s }
{
    &area[s.start as usize..][..s.len as usize]
}

/// The octets of a part. Where the part does not lie within the area, those of them that do.
#[tactic(auto, unfolding(choice::specs::Pick::pick, crate::specs::Area::part))]
pub fn part_of(area: &[u8], s: Span) -> &[u8]
    ensures { result.now ≡ part area.now s }
{
    let behind = area.get(s.start as usize..).unwrap_or_default();
    behind.get(..s.len as usize).unwrap_or(behind)
}
