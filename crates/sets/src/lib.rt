//! Sets of small numbers, as the binary digits of an unsigned number: `k` is in the set exactly where digit `k` is 1.
//!
//! Every set of the product goes through these functions, but for a flag asked of a session (`Session::has`). They have 16 digits; a narrower set is widened on its way in.
#![tactic(auto)]

ghost use Rattle.std.specs.Prelude.{◌≡◌, ◌<◌, ◌≤◌};
ghost use Rattle.sets.specs.Set.{set_width, has, common, meets, union, minus, with, without, first, numbered, holds, switched};

mod digits;
mod numbered_things;

pub use digits::Digits;
pub use numbered_things::Numbered;

// A type of sets stands in no signature here: the sets of a session and of an answer are numbers in C's structs.

// The members of a set are below this.
const WIDTH: u16 = 16;

/// Whether `k` is in the set. From 16 on nothing is.
#[tactic(auto, using(crate::proofs::Members::beyond), unfolding(choice::specs::Pick::pick, crate::specs::Set::has))]
pub fn has(s: u16, k: u16) -> bool
    ensures { result ≡ has s k }
{
    // In one expression, `k < WIDTH && ..`, a SAC of two wishes takes 56 instructions for 54, of four 65 for 63.
    if WIDTH <= k {
        return false;
    }
    (s >> k) % 2 == 1
}

/// What is in both.
#[tactic(auto, unfolding(choice::specs::Pick::pick, crate::specs::Set::common))]
pub fn common(a: u16, b: u16) -> u16
    ensures { result ≡ common a b }
{
    a & b
}

/// Whether something is in both.
#[tactic(auto, unfolding(choice::specs::Pick::pick, crate::specs::Set::meets, crate::specs::Set::empty))]
pub fn meets(a: u16, b: u16) -> bool
    ensures { result ≡ meets a b }
{
    common(a, b) != 0
}

/// What is in either.
#[tactic(auto, unfolding(choice::specs::Pick::pick, crate::specs::Set::union))]
pub fn union(a: u16, b: u16) -> u16
    ensures { result ≡ union a b }
{
    a | b
}

/// What is in the first and not in the second.
#[tactic(auto, using(crate::proofs::Members::minus_is), unfolding(choice::specs::Pick::pick))]
pub fn minus(a: u16, b: u16) -> u16
    ensures { result ≡ minus a b }
{
    a & !b
}

// `with` and `without` differ in the operation, one line each, and in no type or constant.
// The set with k.
#[tactic(auto, unfolding(choice::specs::Pick::pick, crate::specs::Set::with))]
fn with(s: u16, k: u16) -> u16
    requires { k < set_width }
    ensures { result ≡ with s k }
{
    union(s, 1 << k)
}

/// The set without `k`.
#[tactic(auto, unfolding(choice::specs::Pick::pick, crate::specs::Set::without))]
pub fn without(s: u16, k: u16) -> u16
    requires { k < set_width }
    ensures { result ≡ without s k }
{
    minus(s, 1 << k)
}

// No Option: docs/PROMISES.md names it, and it promises 16 of an empty set.
/// The smallest that is in the set, and 16 where nothing is.
#[tactic(auto, unfolding(choice::specs::Pick::pick, crate::specs::Set::first))]
pub fn first(s: u16) -> u16
    ensures { result ≡ first s }
{
    s.trailing_zeros() as u16
}

// Here and below the width and the number stay arguments: docs/PROMISES.md names the three functions, and kinds, numbered from 0, have no `Numbered` type.
/// Whether `n` is one of the numbers 1 to `w`. In a set of them `n` stands at place `n - 1`.
#[tactic(auto, unfolding(choice::specs::Pick::pick, crate::specs::Set::numbered))]
pub fn numbered(w: u32, n: u32) -> bool
    ensures { result ≡ numbered w n }
{
    1 <= n && n <= w
}

/// Whether `n` is one of the numbers 1 to `w` and in the set.
#[tactic(auto, unfolding(choice::specs::Pick::pick, crate::specs::Set::numbered))]
pub fn holds(w: u32, s: u16, n: u32) -> bool
    requires { w ≤ set_width }
    ensures { result ≡ holds w s n }
{
    numbered(w, n) && has(s, (n - 1) as u16)
}

/// The set with the number `n` of 1 to `w` switched on or off. Any other number changes nothing.
#[tactic(auto, using(crate::proofs::Switches::numbered_is), unfolding(choice::specs::Pick::pick, crate::specs::Set::switched))]
pub fn switched(w: u32, s: u16, n: u32, on: bool) -> u16
    requires { w ≤ set_width }
    ensures { result ≡ switched w s n on }
{
    if !numbered(w, n) {
        return s;
    }
    let k = (n - 1) as u16;
    if on { with(s, k) } else { without(s, k) }
}
