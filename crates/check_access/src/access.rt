//! Accesses of nodes to memory.

ghost use Rattle.std.specs.Prelude.{◌≡◌};
ghost use Rattle.check_access.specs.AccessKinds.{loads, changes, stores, sets_layout, transfers, sets_owner, is_discard, is_acquire, wanted};

use base::Family;
use vk::{Layout, Layouts};

/// Who loads or stores, and may hold bytes that others do not see: an agent of a queue, as one bit of `vk::agents`, or
/// the host.
#[derive(Clone, Copy, Debug, PartialEq, Eq)]
pub enum Agent {
    Of { queue: u32, bit: u16 },
    Host,
}

/// What a transfer of ownership hands over: from which family, to which, and an image in which layouts.
#[derive(Clone, Copy, Debug, PartialEq, Eq)]
pub struct Handover {
    pub from: Family,
    pub to: Family,
    pub layouts: Option<Layouts>,
}

/// What an access does to its piece.
#[derive(Clone, Copy, Debug, PartialEq, Eq)]
pub enum AccessKind {
    /// By an agent; an image has to be in the layout.
    Load {
        agent: Agent,
        layout: Option<Layout>,
    },
    /// As a load.
    Store {
        agent: Agent,
        layout: Option<Layout>,
    },
    /// A transition that keeps the texels, a load and a store at once.
    Transition(Layouts),
    /// A transition out of `UNDEFINED` into this layout.
    Discard(Layout),
    /// The first half of a transfer of ownership.
    Release(Handover),
    /// The second half.
    Acquire(Handover),
}

/// One access of a node.
#[derive(Clone, Copy, Debug, PartialEq, Eq)]
pub struct Access {
    /// The number of the piece.
    pub piece: u32,
    pub kind: AccessKind,
}

impl AccessKind {
    /// Whether old bytes matter: a load or a transition.
    pub fn loads(self) -> bool
        ensures { result ≡ loads self }
    {
        matches!(self, AccessKind::Load { .. } | AccessKind::Transition(_))
    }

    /// Whether bytes may change: a store, a transition or a discard.
    pub fn changes(self) -> bool
        ensures { result ≡ changes self }
    {
        matches!(
            self,
            AccessKind::Store { .. } | AccessKind::Transition(_) | AccessKind::Discard(_)
        )
    }

    /// Whether bytes are there afterwards: a store or a transition.
    pub fn stores(self) -> bool
        ensures { result ≡ stores self }
    {
        matches!(self, AccessKind::Store { .. } | AccessKind::Transition(_))
    }

    /// Whether it sets a layout: a transition or a discard.
    pub fn sets_layout(self) -> bool
        ensures { result ≡ sets_layout self }
    {
        matches!(self, AccessKind::Transition(_) | AccessKind::Discard(_))
    }

    /// Whether it is half of a transfer of ownership.
    pub fn transfers(self) -> bool
        ensures { result ≡ transfers self }
    {
        matches!(self, AccessKind::Release(_) | AccessKind::Acquire(_))
    }

    /// Whether it decides who owns the piece: a discard or half of a transfer.
    pub fn sets_owner(self) -> bool
        ensures { result ≡ sets_owner self }
    {
        matches!(
            self,
            AccessKind::Discard(_) | AccessKind::Release(_) | AccessKind::Acquire(_)
        )
    }

    pub fn is_discard(self) -> bool
        ensures { result ≡ is_discard self }
    {
        matches!(self, AccessKind::Discard(_))
    }

    pub fn is_acquire(self) -> bool
        ensures { result ≡ is_acquire self }
    {
        matches!(self, AccessKind::Acquire(_))
    }

    /// The layout that it has to find.
    pub fn wanted(self) -> Option<Layout>
        ensures { result ≡ wanted self }
    {
        match self {
            AccessKind::Load { layout, .. } | AccessKind::Store { layout, .. } => layout,
            AccessKind::Transition(layouts) => Some(layouts.from),
            _ => None,
        }
    }
}
