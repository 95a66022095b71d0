//! What stands round each computation of a command.

/// Two calls round each computation of a command. Neither changes what the program does; a gate can hold a thread up, so
/// that a test sees which commands run side by side.
pub trait Gate {
    /// The command of this node is about to be computed.
    fn enter(&self, node: u32);

    /// The command of this node was computed.
    fn leave(&self, node: u32);
}

/// A gate that does nothing.
#[derive(Clone, Copy, Debug, PartialEq, Eq)]
pub struct IdleGate;

impl IdleGate {
    pub fn new() -> Self {
        IdleGate
    }
}

impl Gate for IdleGate {
    fn enter(&self, _node: u32) {}

    fn leave(&self, _node: u32) {}
}
