//! What stands before one group.

use vk::Masks;

/// What stands before the first member of a group.
#[derive(Clone, Copy, Debug, PartialEq, Eq)]
pub enum PrologueKind {
    Nothing,
    /// A barrier on the unit.
    Barrier,
    /// The acquire of a transfer of ownership.
    Transfer,
    /// A barrier on all memory, since an earlier unit lies in the same bytes.
    Alias,
    /// An image's transition out of `UNDEFINED`.
    Init,
    /// A barrier on all memory, and then a transition out of `UNDEFINED`.
    AliasInit,
}

/// What stands before the first member of a group, and the release that a transfer begins with.
#[derive(Clone, Copy, Debug, PartialEq, Eq)]
pub struct Prologue {
    /// The queue of the group's first member.
    pub queue: u32,
    pub group: u32,
    pub kind: PrologueKind,
    /// Those of the barrier or the acquire. In `AliasInit` those of the barrier on all memory: the transition has its
    /// destination on both sides, and no source access.
    pub masks: Masks,
    /// Of a transfer: those of the release after the group before.
    pub release: Option<Masks>,
    /// Of a transfer: the queue of the last member of the group before.
    pub release_queue: Option<u32>,
}
