//! Bytes of a slot, laid from an address on.

/// The bytes of a slot, laid from address `start` on: address x has the slot's byte `x - start`.
#[derive(Clone, Copy, Debug, PartialEq, Eq)]
pub(crate) struct Part {
    pub slot: u32,
    pub start: u32,
}
