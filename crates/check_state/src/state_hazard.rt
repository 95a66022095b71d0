//! What is wrong with the state that an access finds.

use base::Family;
use vk::Layout;

/// What is wrong with an access beside bytes. Nodes and pieces are named by their numbers.
#[derive(Clone, Copy, Debug, PartialEq, Eq)]
pub enum StateHazard {
    /// H5: an image is in another layout than the one wanted.
    BadLayout {
        node: u32,
        piece: u32,
        found: Layout,
        wanted: Layout,
    },
    /// H6: another queue family owns the piece, or none does.
    BadOwner {
        node: u32,
        piece: u32,
        found: Option<Family>,
        wanted: Family,
    },
    /// H7: half of a transfer of ownership without its other half.
    Unmatched {
        node: u32,
    },
}
