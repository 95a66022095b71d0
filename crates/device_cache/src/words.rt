//! The words that one cache move takes.

/// Five words of a generator, in the order in which they are drawn.
#[derive(Clone, Copy)]
pub(crate) struct Words {
    pub kind: u32,
    pub agent: u32,
    pub memory: u32,
    pub start: u32,
    pub len: u32,
}
