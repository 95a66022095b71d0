//! Whose a piece is.

ghost use Rattle.std.specs.Prelude.{◌≡◌};
ghost use Rattle.device_model.specs.Ready.{is_foreign};
ghost use Rattle.device_model.specs.Steps.{owner_by};

use base::Family;
use check_access::AccessKind;

/// Nobody has used a piece yet, or its last use left it to a family or to nobody.
#[derive(Clone, Copy, Debug, PartialEq, Eq)]
pub enum Owner {
    Unused,
    Left(Option<Family>),
}

impl Owner {
    /// Whether another family owns the piece. A host read has no family, and a piece that was released has no owner.
    pub fn is_foreign(self, family: Option<Family>) -> bool
        ensures { result ≡ is_foreign self family }
    {
        match (self, family) {
            (Owner::Left(Some(owner)), Some(family)) => owner != family,
            _ => false,
        }
    }

    /// Whose the piece is after an access by a node of the family: after a release nobody's, until it is acquired.
    pub fn after(self, kind: AccessKind, family: Option<Family>) -> Owner
        ensures { result ≡ owner_by kind family self }
    {
        match (kind, self) {
            (AccessKind::Release(_), _) => Owner::Left(None),
            (AccessKind::Discard(_) | AccessKind::Acquire(_), _) => Owner::Left(family),
            (_, Owner::Unused) => Owner::Left(family),
            (_, left) => left,
        }
    }
}
