//! Applications and kinds: the kinds that targeted applications open, those that SAC Apps control, and those that need a capability.
//!
//! A set has the application, the App or the capability `n` at bit `n - 1`, and the kind `k` at bit `k`.
#![tactic(auto)]

ghost use Rattle.std.specs.Prelude.{◌≡◌, get_or};
ghost use Rattle.std.proofs.Common.{rules};
ghost use Rattle.sets.specs.Set.{has};
ghost use Rattle.kinds.specs.Kinds.{application_count, app_count, capability_count, opened, disables, barred};
ghost use Rattle.kinds.specs.ByKind.{openers, kinds_by};

use sets::Numbered;

// Here and below: tuple structs over the number, the buyer's form (docs/DECISIONS.md, "Which forms 01 asks for"), and a number that was read may be any.
/// A targeted application by its number, as the TAC has it. [`Numbered`] says which are known.
#[derive(Clone, Copy)]
pub struct TaId(pub u32);

/// A SAC application by its number. The same number means another thing than in a [`TaId`].
#[derive(Clone, Copy)]
pub struct SacApp(pub u32);

/// A capability that kinds need, by its number: 1 P2MP, 2 MP2MP, 3 HSMP.
// Not an enum: `is_in` and `switched` are public and answer for each number, 0 and those above 3 too.
#[derive(Clone, Copy)]
pub struct Capability(pub u32);

// No enum: C hands in numbers, and `opens_kind`, `disables_kind` and `bars_kind` answer for each, those above 9 too.
/// How many kinds there are. They are numbered from 0 on.
pub const KIND_COUNT: u32 = 10;

/// The set of all kinds.
pub const ALL_KINDS: u16 = (1 << KIND_COUNT) - 1;

// Arrays by number and no maps: memory is fixed, and each number has a place.
// A table has a set of applications or of Apps for each kind, from kind 0 on. In it the number n stands at bit n - 1.
const KINDS: usize = KIND_COUNT as usize;

// 1 LDPv4 Tunneling, 4 LDPv4 Remote LFA, 12 IPv4 intra-area FECs.
const OPEN_IPV4_PREFIX: u16 = (1 << 0) + (1 << 3) + (1 << 11);

// 2 LDPv6 Tunneling, 5 LDPv6 Remote LFA, 13 IPv6 intra-area FECs.
const OPEN_IPV6_PREFIX: u16 = (1 << 1) + (1 << 4) + (1 << 12);

// 3 mLDP Tunneling, 11 mLDP Node Protection.
const OPEN_MLDP: u16 = (1 << 2) + (1 << 10);

// The applications that open each kind in every session. 8 Session Protection opens the session's own, and 9 ICCP none.
const OPENERS: [u16; KINDS] = [
    OPEN_IPV4_PREFIX, // 0 IPv4 prefix
    OPEN_IPV6_PREFIX, // 1 IPv6 prefix
    OPEN_MLDP, // 2 P2MP
    OPEN_MLDP, // 3 MP2MP-up
    OPEN_MLDP, // 4 MP2MP-down
    OPEN_MLDP, // 5 HSMP-downstream
    OPEN_MLDP, // 6 HSMP-upstream
    1 << 5, // 7 PWid: 6 FEC 128 PW
    1 << 6, // 8 Generalized PWid: 7 FEC 129 PW
    1 << 9, // 9 P2MP PW Upstream: 10 P2MP PW
];

// The Apps that control each kind: App 1 kind 0, 2 kind 1, 3 kind 7, 4 kind 8.
const CONTROLLERS: [u16; KINDS] = [1 << 0, 1 << 1, 0, 0, 0, 0, 0, 1 << 2, 1 << 3, 0];

// The kinds that need each capability.
const NEED_P2MP: u16 = 1 << 2;

const NEED_MP2MP: u16 = (1 << 3) + (1 << 4);

const NEED_HSMP: u16 = (1 << 5) + (1 << 6);

// The kinds that need a capability which is not held, by the set of those that are.
const BARRED: [u16; Capability::SETS] = [
    NEED_P2MP + NEED_MP2MP + NEED_HSMP, // none
    NEED_MP2MP + NEED_HSMP, // P2MP
    NEED_P2MP + NEED_HSMP, // MP2MP
    NEED_HSMP, // P2MP, MP2MP
    NEED_P2MP + NEED_MP2MP, // HSMP
    NEED_MP2MP, // P2MP, HSMP
    NEED_P2MP, // MP2MP, HSMP
    0, // all three
];

impl TaId {
    /// The set of all of them.
    pub const ALL: u16 = (1 << <TaId as Numbered>::COUNT) - 1;

    // Session Protection's place in a set.
    const SESSION_PROTECTION_BIT: u16 = 8 - 1;

    const SESSION_PROTECTION: u16 = 1 << Self::SESSION_PROTECTION_BIT;
}

// `number` by hand for each type: no impl is written by a macro or a derive of our own.
impl Numbered for TaId {
    type Set = u16;

    ghost COUNT = { application_count };

    const COUNT: u32 = 13;

    ghost number = { λ t. t.0 };

    fn number(self) -> u32 {
        self.0
    }

    ghost fits = { Prim.search rules };
}

impl Numbered for SacApp {
    type Set = u8;

    ghost COUNT = { app_count };

    const COUNT: u32 = 4;

    ghost number = { λ a. a.0 };

    fn number(self) -> u32 {
        self.0
    }

    ghost fits = { Prim.search rules };
}

impl Capability {
    /// Point-to-multipoint LSPs (RFC 6388).
    pub const P2MP: u32 = 1;

    /// Multipoint-to-multipoint LSPs (RFC 6388).
    pub const MP2MP: u32 = 2;

    /// Hub-and-spoke multipoint LSPs (RFC 7140).
    pub const HSMP: u32 = 3;

    // How many sets of them there are, and the set of all of them.
    const SETS: usize = 1 << Self::COUNT;

    const ALL: u16 = (1 << Self::COUNT) - 1;
}

impl Numbered for Capability {
    type Set = u8;

    ghost COUNT = { capability_count };

    const COUNT: u32 = 3;

    ghost number = { λ c. c.0 };

    fn number(self) -> u32 {
        self.0
    }

    ghost fits = { Prim.search rules };
}

// The set of a kind in a table; of a kind over 9, the empty one.
fn at(table: [u16; KINDS], kind: u16) -> u16
    ensures { result ≡ get_or table kind 0 }
{
    table.get(kind as usize).copied().unwrap_or(0)
}

// The kinds that these members stand for by a table: those whose set they meet.
#[tactic(auto, unfolding(choice::specs::Pick::pick, sets::specs::Set::chosen, crate::specs::ByKind::kinds_by))]
fn kinds_by(table: [u16; KINDS], members: u16) -> u16
    ensures { result ≡ kinds_by table members }
{
    let mut kinds: u16 = 0;
    for (kind, &set) in table.iter().enumerate() {
        kinds = sets::switched(
            KIND_COUNT,
            kinds,
            kind as u32 + 1,
            sets::meets(members, set),
        );
    }
    kinds
}

// The applications that open a kind, in a session with these protected kinds.
#[tactic(auto, using(crate::proofs::Table::openers_at), unfolding(choice::specs::Pick::pick, crate::specs::ByKind::openers, sets::specs::Set::with))]
fn openers(kind: u16, protects: u16) -> u16
    ensures { result ≡ openers protects kind }
{
    let always = at(OPENERS, kind);
    if sets::has(protects, kind) {
        sets::union(always, TaId::SESSION_PROTECTION)
    } else {
        always
    }
}

/// Whether a set of applications opens this one kind, in a session with these protected kinds. A kind over 9 is opened where it is protected and
/// Session Protection is in the set.
#[tactic(auto, using(crate::proofs::ByKind::opened_meets), unfolding(choice::specs::Pick::pick))]
pub fn opens_kind(applications: u16, protects: u16, kind: u16) -> bool
    ensures { result ≡ has (opened protects applications) kind }
{
    sets::meets(applications, openers(kind, protects))
}

/// The kinds that a set of applications opens, in a session with these protected kinds.
#[tactic(auto, using(crate::proofs::ByKind::opened_protected, crate::proofs::ByKind::opened_unprotected), unfolding(choice::specs::Pick::pick))]
pub fn opened(applications: u16, protects: u16) -> u16
    ensures { result ≡ opened protects applications }
{
    let kinds = kinds_by(OPENERS, applications);
    if sets::has(applications, TaId::SESSION_PROTECTION_BIT) {
        sets::union(kinds, protects)
    } else {
        kinds
    }
}

/// Whether a set of Apps disables this one kind.
#[tactic(auto, using(crate::proofs::Table::controllers_at, crate::proofs::ByKind::disables_meets), unfolding(choice::specs::Pick::pick))]
pub fn disables_kind(apps: u8, kind: u16) -> bool
    ensures { result ≡ has (disables apps) kind }
{
    sets::meets(apps.into(), at(CONTROLLERS, kind))
}

/// The kinds that a set of Apps disables.
#[tactic(auto, using(crate::proofs::ByKind::disables_by_kind), unfolding(choice::specs::Pick::pick))]
pub fn disables(apps: u8) -> u16
    ensures { result ≡ disables apps }
{
    kinds_by(CONTROLLERS, apps.into())
}

/// The kinds that need a capability which is not in the set.
#[tactic(auto, using(crate::proofs::Capable::known_lt, crate::proofs::Capable::known_bar))]
pub fn barred(held: u8) -> u16
    ensures { result ≡ barred held }
{
    let known = sets::common(Capability::ALL, held.into());
    BARRED[known as usize]
}

/// Whether this one kind does.
pub fn bars_kind(held: u8, kind: u16) -> bool
    ensures { result ≡ has (barred held) kind }
{
    sets::has(barred(held), kind)
}
