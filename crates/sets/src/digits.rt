//! What a set is kept in: an unsigned number, whose binary digits say which members there are.
ghost use Rattle.std.specs.Prelude.{◌≡◌, ◌<◌, ◌≤◌, ◌%◌, ◌^◌, ℕ};
ghost use Rattle.sets.specs.Set.{set_width};
ghost use Rattle.std.proofs.Common.{rules};

/// An unsigned number that a set is kept in: `k` is a member exactly where binary digit `k` is 1.
///
/// The operations on sets are written once, over 16 digits. A narrower number is widened on its way in and narrowed on its way out, and both keep
/// the digits.
///
/// # Laws
///
/// - `narrow_enough`: it has no more digits than those operations have.
/// - `told`: two such numbers with the same digits are equal.
pub trait Digits: Copy {
    /// The digits, as a number of `Set.antt`.
    ghost digits: { Self → ℕ };

    /// How many digits there are.
    ghost width: { ℕ };

    /// The same digits in a number of 16.
    fn wide(self) -> u16
        ensures value { result ≡ digits self }
        ensures fits { result < 2 ^ width };

    /// The number of these digits, without those at the width and above.
    fn narrow(wide: u16) -> Self
        ensures { digits result ≡ wide % 2 ^ width };

    ghost narrow_enough: { width ≤ set_width };

    ghost told: { (s t : Self) → digits s ≡ digits t → s ≡ t };
}

impl Digits for u8 {
    ghost digits = { λ s. s };

    ghost width = { 8 };

    fn wide(self) -> u16 {
        u16::from(self)
    }

    fn narrow(wide: u16) -> u8 {
        // As `narrow` promises it; `to_le_bytes` makes two octets to take one.
        (wide % 256) as u8
    }

    ghost narrow_enough = { Prim.search rules };

    ghost told = { λ s t e. e };
}

impl Digits for u16 {
    ghost digits = { λ s. s };

    ghost width = { 16 };

    fn wide(self) -> u16 {
        self
    }

    fn narrow(wide: u16) -> u16 {
        wide
    }

    ghost narrow_enough = { Prim.search rules };

    ghost told = { λ s t e. e };
}
