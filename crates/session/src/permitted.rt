// Which kinds of label may be sent.
ghost use Rattle.std.specs.Prelude.{◌≡◌};
ghost use Rattle.sets.specs.Set.{has};
ghost use Rattle.session.specs.Session.{permitted_by_base, permitted};

use crate::{Flag, Session, State};

impl Session {
    /// The kinds that TAC (RFC 8223) and SAC (RFC 7473) leave, as a set, whatever capabilities the ends hold. It picks and does not branch, and so is put in place where it is asked.
    #[tactic(auto, unfolding(choice::specs::Pick::pick, crate::specs::Session::permitted_by_base))]
    #[inline(always)]
    pub fn permitted_by_base(self) -> u16
        ensures { result ≡ permitted_by_base self }
    {
        let opened = kinds::opened(self.negotiated(), self.protects);
        let open = if self.has(Flag::InForce) {
            opened
        } else {
            kinds::ALL_KINDS
        };
        let allowed = sets::minus(open, kinds::disables(self.disabled));
        if self.is(State::Open) { allowed } else { 0 }
    }

    /// The permitted kinds of a session, sound or not, as a set: those whose capability both ends hold as well.
    #[tactic(auto, unfolding(choice::specs::Pick::pick, crate::specs::Session::permitted))]
    #[inline(always)]
    pub fn permitted(self) -> u16
        ensures { result ≡ permitted self }
    {
        let base = self.permitted_by_base();
        sets::minus(base, kinds::barred(self.held()))
    }

    // Whether one kind is among them; the other nine are not looked at.
    #[tactic(auto, using(crate::proofs::PermittedMeans::asked_shut, crate::proofs::PermittedMeans::asked_disabled, crate::proofs::PermittedMeans::asked_barred, crate::proofs::PermittedMeans::asked_free, crate::proofs::PermittedMeans::base_in_force, crate::proofs::PermittedMeans::base_unforced), unfolding(choice::specs::Pick::pick))]
    pub(crate) fn permits(self, kind: u16) -> bool
        ensures { result ≡ has (permitted self) kind }
    {
        if !self.is(State::Open) {
            return false;
        }
        if kinds::disables_kind(self.disabled, kind) {
            return false;
        }
        if kinds::bars_kind(self.held(), kind) {
            return false;
        }
        if self.has(Flag::InForce) {
            return kinds::opens_kind(self.negotiated(), self.protects, kind);
        }
        sets::has(kinds::ALL_KINDS, kind)
    }
}
