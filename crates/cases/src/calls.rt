// The calls of an input: each is one octet with its number, and then its arguments; what follows them is the next call.
ghost use Rattle.std.specs.Prelude.{◌≡◌, ◌≤◌, ◌∷◌, ◌++◌, length, IfSome, MatchOption};
ghost use Rattle.std.specs.Iterator.{at_most};

use row::Limits;
use session::{Session, Settings};
use totals::Totals;

/// A call and its arguments. A room is the length that is asked for.
#[derive(Clone, Copy)]
pub(crate) enum Call<'a> {
    Create(Settings),
    Initialization(&'a [u8]),
    Capability(&'a [u8]),
    LocalChange {
        ta_id: u32,
        on: bool,
        room: u8,
    },
    Mismatch,
    Hello(u32),
    Closed,
    Permitted(u32),
    PermittedKinds,
    RetryInterval,
    Sound,
    Read(&'a [u8]),
    SetRecord([u8; record::LENGTH]),
    NoLimits,
    SetLimit {
        limits: Limits,
        ta_id: u32,
        limit: u32,
    },
    Load,
    Store {
        session: Session,
        room: u8,
    },
    Wish {
        wishes: u32,
        app: u32,
        disable: bool,
        room: u8,
    },
    WishSac {
        wishes: u32,
        room: u8,
    },
    Wanted {
        wishes: u32,
        kind: u32,
    },
    KindTotal {
        totals: Totals,
        kind: u32,
    },
    Forward(&'a [u8]),
    Back {
        room: u8,
    },
}

/// A value that is read off the front of octets, numbers least significant octet first.
trait Argument<'a>: Sized {
    /// `None` where octets are missing.
    fn take_from(octets: &mut &'a [u8]) -> Option<Self>
        ensures rest { length octets.new.now ≤ length octets.old.now };
}

// The next argument, of the type that is wanted.
fn take<'a, T: Argument<'a>>(octets: &mut &'a [u8]) -> Option<T>
    ensures { length octets.new.now ≤ length octets.old.now }
{
    T::take_from(octets)
}

impl<'a, const N: usize> Argument<'a> for [u8; N] {
    fn take_from(octets: &mut &'a [u8]) -> Option<[u8; N]>
        ensures taken { IfSome result (λ taken. octets.old.now ≡ taken ++ octets.new.now) }
        ensures rest { length octets.new.now ≤ length octets.old.now }
    {
        let (array, rest) = octets.split_first_chunk::<N>()?;
        *octets = rest;
        Some(*array)
    }
}

impl<'a> Argument<'a> for u8 {
    fn take_from(octets: &mut &'a [u8]) -> Option<u8>
        ensures taken { MatchOption result ((length octets.old.now ≡ 0) × (octets.new.now ≡ octets.old.now)) (λ octet. octets.old.now ≡ octet ∷ octets.new.now) }
        ensures rest { length octets.new.now ≤ length octets.old.now }
    {
        octets.split_off_first().copied()
    }
}

// Any octet but 0 is true.
impl<'a> Argument<'a> for bool {
    fn take_from(octets: &mut &'a [u8]) -> Option<bool> {
        Some(u8::take_from(octets)? != 0)
    }
}

// An impl for each width: `from_le_bytes` is of no trait.
impl<'a> Argument<'a> for u16 {
    fn take_from(octets: &mut &'a [u8]) -> Option<u16> {
        Some(u16::from_le_bytes(take(octets)?))
    }
}

impl<'a> Argument<'a> for u32 {
    fn take_from(octets: &mut &'a [u8]) -> Option<u32> {
        Some(u32::from_le_bytes(take(octets)?))
    }
}

// An area stands behind its length of two octets.
impl<'a> Argument<'a> for &'a [u8] {
    fn take_from(octets: &mut &'a [u8]) -> Option<&'a [u8]> {
        let length = u16::take_from(octets)?;
        octets.split_off(..usize::from(length))
    }
}

// Roles by their bits, as the input has them; the other bits are not read.
const INITIATING: u8 = 1;

const ACTIVE: u8 = 2;

const USES_TAC: u8 = 4;

const DROPS: u8 = 8;

impl<'a> Argument<'a> for Settings {
    fn take_from(octets: &mut &'a [u8]) -> Option<Settings> {
        let roles = u8::take_from(octets)?;
        Some(Settings {
            initiating: roles & INITIATING != 0,
            active: roles & ACTIVE != 0,
            uses_tac: roles & USES_TAC != 0,
            drops: roles & DROPS != 0,
            protected_kinds: take(octets)?,
            enabled: take(octets)?,
            first_number: take(octets)?,
            wishes: take(octets)?,
            capabilities: take(octets)?,
        })
    }
}

impl<'a> Argument<'a> for Session {
    fn take_from(octets: &mut &'a [u8]) -> Option<Session> {
        Some(Session {
            state: take(octets)?,
            flags: take(octets)?,
            disabled: take(octets)?,
            enabled: take(octets)?,
            listed: take(octets)?,
            protects: take(octets)?,
            ours: take(octets)?,
            theirs: take(octets)?,
            hello: take(octets)?,
            next: take(octets)?,
        })
    }
}

// Two structs of C's, each over an array of its own.
impl<'a> Argument<'a> for Limits {
    fn take_from(octets: &mut &'a [u8]) -> Option<Limits> {
        Some(Limits {
            each: take(octets)?,
        })
    }
}

impl<'a> Argument<'a> for Totals {
    fn take_from(octets: &mut &'a [u8]) -> Option<Totals> {
        Some(Totals {
            each: take(octets)?,
        })
    }
}

// The call with this number: `None` where it is none of ours or cut short.
fn numbered<'a>(number: u8, octets: &mut &'a [u8]) -> Option<Call<'a>>
    ensures { length octets.new.now ≤ length octets.old.now }
{
    Some(match number {
        1 => Call::Create(take(octets)?),
        2 => Call::Initialization(take(octets)?),
        3 => Call::Capability(take(octets)?),
        4 => Call::LocalChange {
            ta_id: take(octets)?,
            on: take(octets)?,
            room: take(octets)?,
        },
        5 => Call::Mismatch,
        6 => Call::Hello(take(octets)?),
        7 => Call::Closed,
        8 => Call::Permitted(take(octets)?),
        9 => Call::PermittedKinds,
        10 => Call::RetryInterval,
        11 => Call::Sound,
        12 => Call::Read(take(octets)?),
        13 => Call::SetRecord(take(octets)?),
        14 => Call::NoLimits,
        15 => Call::SetLimit {
            limits: take(octets)?,
            ta_id: take(octets)?,
            limit: take(octets)?,
        },
        16 => Call::Load,
        17 => Call::Store {
            session: take(octets)?,
            room: take(octets)?,
        },
        18 => Call::Wish {
            wishes: take(octets)?,
            app: take(octets)?,
            disable: take(octets)?,
            room: take(octets)?,
        },
        19 => Call::WishSac {
            wishes: take(octets)?,
            room: take(octets)?,
        },
        20 => Call::Wanted {
            wishes: take(octets)?,
            kind: take(octets)?,
        },
        21 => Call::KindTotal {
            totals: take(octets)?,
            kind: take(octets)?,
        },
        22 => Call::Forward(take(octets)?),
        23 => Call::Back {
            room: take(octets)?,
        },
        _ => return None,
    })
}

/// The calls of an input, each with its number, up to the first that is none of ours or cut short.
#[derive(Clone, Copy)]
pub(crate) struct Calls<'a>(pub &'a [u8]);

impl<'a> Iterator for Calls<'a> {
    type Item = (u8, Call<'a>);

    ghost remaining = { λ calls. at_most (length calls.0.now) };

    // What is cut short is not taken.
    fn next(&mut self) -> Option<(u8, Call<'a>)> {
        let (number, mut rest) = self.0.split_first()?;
        let call = numbered(*number, &mut rest)?;
        self.0 = rest;
        Some((*number, call))
    }
}
