//! Things that have the numbers from 1 on, and sets of them.
ghost use Rattle.std.specs.Prelude.{◌≡◌, ◌≤◌, ℕ};
ghost use Rattle.sets.specs.Set.{numbered, holds, switched};

use crate::Digits;

/// Things that have the numbers 1 to `COUNT`, as targeted applications have 1 to 13.
///
/// A value may have any number, as it was read: one of no known thing is in no set, and switching it changes nothing. In a set the number `n` stands
/// at place `n - 1`.
///
/// # Laws
///
/// - `fits`: a set has a place for each.
pub trait Numbered: Copy {
    /// A set of them.
    type Set: Digits;

    ghost COUNT: { ℕ };

    /// How many there are.
    const COUNT: u32;

    ghost number: { Self → ℕ };

    /// The number, which may be that of no known thing.
    fn number(self) -> u32
        ensures { result ≡ number self };

    ghost fits: { COUNT ≤ Self.Set.width };

    /// Whether there is one of this number.
    final fn is_known(self) -> bool
        ensures { result ≡ numbered COUNT (number self) }
    {
        crate::numbered(Self::COUNT, self.number())
    }

    /// Whether it is in the set. An unknown one is in none.
    final fn is_in(self, set: Self::Set) -> bool
        ensures { result ≡ holds COUNT (Self.Set.digits set) (number self) }
    {
        crate::holds(Self::COUNT, set.wide(), self.number())
    }

    /// The set with it switched on or off. An unknown one changes nothing.
    #[tactic(auto, using(crate::proofs::Switches::switched_kept))]
    final fn switched(self, set: Self::Set, on: bool) -> Self::Set
        ensures { Self.Set.digits result ≡ switched COUNT (Self.Set.digits set) (number self) on }
    {
        Self::Set::narrow(crate::switched(Self::COUNT, set.wide(), self.number(), on))
    }
}
