//! What a node is to the order of nodes.

ghost use Rattle.std.specs.Prelude.{◌≡◌};
ghost use Rattle.check_order.specs.Edges.{is_signal, is_wait, is_host, is_sync, has_value};

/// What a node is to the order of nodes. Release and acquire are barriers.
#[derive(Clone, Copy, Debug, PartialEq, Eq)]
pub enum Kind {
    Command,
    Barrier,
    /// For the timeline of a queue to reach a value.
    Wait { queue: u32, value: u64 },
    /// Of the timeline of its own queue.
    Signal { value: u64 },
    /// The host's read of a piece.
    Host,
}

impl Kind {
    pub fn is_signal(self) -> bool
        ensures { result ≡ is_signal self }
    {
        match self {
            Kind::Signal { .. } => true,
            _ => false,
        }
    }

    pub fn is_wait(self) -> bool
        ensures { result ≡ is_wait self }
    {
        match self {
            Kind::Wait { .. } => true,
            _ => false,
        }
    }

    pub fn is_host(self) -> bool
        ensures { result ≡ is_host self }
    {
        match self {
            Kind::Host => true,
            _ => false,
        }
    }

    /// Whether it is a barrier, a wait or a signal.
    pub fn is_sync(self) -> bool
        ensures { result ≡ is_sync self }
    {
        match self {
            Kind::Barrier | Kind::Wait { .. } | Kind::Signal { .. } => true,
            Kind::Command | Kind::Host => false,
        }
    }

    /// Whether it is a signal with at least that value.
    pub(crate) fn has_value(self, least: u64) -> bool
        ensures { result ≡ has_value least self }
    {
        match self {
            Kind::Signal { value } => least <= value,
            _ => false,
        }
    }
}
