//! What a frame is compiled to.

use compile_heap::Placement;
use frame_cull::Kept;

/// What a frame is compiled to, with what was decided on the way. `P` is the program: as it was recorded, or what was made of it.
#[derive(Drop)]
pub struct Compiled<P> {
    /// What is submitted.
    pub program: P,
    /// The passes whose commands are submitted.
    pub kept: Kept,
    /// Where transient units lie in the heap.
    pub placement: Placement,
}
