#![tactic(auto)]
// What a call refuses.
ghost use Rattle.std.specs.Prelude.{◌≡◌};
ghost use Rattle.refusals.specs.Refusals.{number_of, number_told};

/// Why a call refuses. specs/Refusals.antt says when each is given, and gives each the number that C is told; no refusal has the number 14.
#[derive(Clone, Copy, Debug, PartialEq, Eq)]
pub enum Refusal {
    AreaTooLong = 1,
    CutShort = 2,
    BadLength = 3,
    UnknownType = 4,
    Repeated = 5,
    OutOfRange = 6,
    WrongState = 7,
    NoRoom = 8,
    PeerNotDynamic = 9,
    NotSound = 10,
    OutsideRow = 11,
    LimitTooHigh = 12,
    CapabilitiesHeld = 13,
    UnknownApp = 15,
    TotalOutside = 16,
}

// By hand: no derive makes a number of an enum.
/// The number that C is told.
impl From<Refusal> for u8 {
    ghost from_gives = { λ refusal number. number ≡ number_of refusal };

    fn from(refusal: Refusal) -> u8 {
        refusal as u8
    }
}

/// What C is told of a call that answers nothing but whether it is refused: the refusal's number, or 0.
pub fn number_of(done: Result<(), Refusal>) -> u8
    ensures { result ≡ number_told done }
{
    match done {
        Ok(()) => NOT_REFUSED,
        Err(refusal) => refusal.into(),
    }
}

/// The number that C is told where nothing is refused.
pub const NOT_REFUSED: u8 = 0;
