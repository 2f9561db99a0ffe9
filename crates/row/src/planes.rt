// How many sessions have each member of a set, applications or kinds, in planes: plane j is the set of the members whose count has binary digit j, so that
// one ripple of carries brings all counts up to date.
ghost use Rattle.std.specs.Prelude.{◌≡◌, ◌<◌};
ghost use Rattle.kinds.specs.Kinds.{application_count};
ghost use Rattle.row.specs.Survey.{unlike, added, digit, weighed, weighed_each, empty_planes};

use crate::APPLICATIONS;

// The binary digits of a count, 0 to 64.
pub(crate) const PLANES: usize = 7;

#[derive(Clone, Copy)]
pub(crate) struct Planes {
    each: [u16; PLANES],
}

// What is in one of the two, and not in both.
#[tactic(auto, unfolding(choice::specs::Pick::pick, crate::specs::Survey::unlike))]
fn unlike(a: u16, b: u16) -> u16
    ensures { result ≡ unlike a b }
{
    sets::minus(sets::union(a, b), sets::common(a, b))
}

// A number with one binary digit more, at its end.
#[tactic(auto, unfolding(choice::specs::Pick::pick, crate::specs::Survey::digit))]
fn digit(n: u8, on: bool) -> u8
    requires { n < 64 }
    ensures { result ≡ digit n on }
{
    if on {
        return n + n + 1;
    }
    n + n
}

impl Planes {
    // Before the first session.
    pub(crate) fn empty() -> Planes
        ensures { result.each ≡ empty_planes }
    {
        Planes { each: [0; PLANES] }
    }

    // One more for each member of a set: what a plane has already is carried to the next.
    #[tactic(auto, using(crate::proofs::Ripple::adding))]
    #[inline(always)]
    pub(crate) fn added(self, members: u16) -> Planes
        ensures { result.each ≡ added self.each members }
    {
        let mut each = self.each;
        let mut carry = members;
        for plane in each.iter_mut() {
            // With nothing to carry the other planes stay.
            if carry == 0 {
                break;
            }
            let sum = unlike(*plane, carry);
            carry = sets::common(*plane, carry);
            *plane = sum;
        }
        Planes { each }
    }

    // The number at place k, from its highest digit on.
    #[tactic(auto, using(crate::proofs::Ripple::weighed_before, crate::proofs::Ripple::weighed_less, crate::proofs::Ripple::weighed_all), unfolding(crate::specs::Survey::weighed))]
    fn weighed(self, k: u16) -> u8
        ensures { result ≡ weighed self.each k }
    {
        let mut n = 0;
        for &plane in self.each.iter().rev() {
            n = digit(n, sets::has(plane, k));
        }
        n
    }

    // The numbers at all places.
    #[tactic(auto, unfolding(choice::specs::Pick::pick, crate::specs::Survey::weighed_each))]
    pub(crate) fn weighed_each(self) -> [u8; APPLICATIONS]
        ensures { result ≡ weighed_each self.each application_count }
    {
        let mut out = [0; APPLICATIONS];
        for (k, n) in out.iter_mut().enumerate() {
            *n = self.weighed(k as u16);
        }
        out
    }
}
