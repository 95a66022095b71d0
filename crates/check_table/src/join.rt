//! What barriers are that are recorded together, and halves of transfers.

ghost use Rattle.std.specs.Prelude.{◌≡◌, ◌<◌, ◌≤◌};
ghost use Rattle.check_table.specs.Joined.{gives, takes, is_release, is_acquire, join_at};

/// What a barrier is to the order of nodes: a release is waited for by signals alone, and an acquire waits for waits alone. All
/// other nodes are ordinary.
#[derive(Clone, Copy, Debug, PartialEq, Eq)]
pub enum Role {
    Ordinary,
    Release,
    Acquire,
}

impl Role {
    /// Whether accesses, and other nodes than signals, wait for it.
    pub fn gives(self) -> bool
        ensures { result ≡ gives self }
    {
        match self {
            Role::Release => false,
            Role::Ordinary | Role::Acquire => true,
        }
    }

    /// Whether it waits for accesses, and for other nodes than waits.
    pub fn takes(self) -> bool
        ensures { result ≡ takes self }
    {
        match self {
            Role::Acquire => false,
            Role::Ordinary | Role::Release => true,
        }
    }

    pub fn is_release(self) -> bool
        ensures { result ≡ is_release self }
    {
        match self {
            Role::Release => true,
            Role::Ordinary | Role::Acquire => false,
        }
    }

    pub fn is_acquire(self) -> bool
        ensures { result ≡ is_acquire self }
    {
        match self {
            Role::Acquire => true,
            Role::Ordinary | Role::Release => false,
        }
    }
}

/// What a node is beside its kind: its role, and the first node of its dependency. Barriers of one dependency do not hold each
/// other back.
#[derive(Clone, Copy, Debug, PartialEq, Eq)]
pub struct Join {
    pub role: Role,
    pub first: u32,
}

/// What node `n` of so many is. A node that the list does not reach is ordinary, and alone in its dependency.
pub(crate) fn join_at(joins: &[Join], n: usize, count: usize) -> Join
    requires few { count ≤ 65536 }
    requires n { n < count }
    ensures { result ≡ join_at joins.now n }
{
    if n < joins.len() {
        joins[n]
    } else {
        Join {
            role: Role::Ordinary,
            first: n as u32,
        }
    }
}
