//! How many bytes are compared where a command comes back.

use device_cache::Contents;
use program::Memory;

// As many bytes as comparing a node takes, about.
const NODE: usize = 256;

/// About as many bytes as a comparison of a program with these memories and so many nodes reads.
pub(crate) fn weight_of(memories: &[Memory], nodes: usize) -> usize {
    let mut weight = nodes.wrapping_mul(NODE);
    for memory in memories {
        if let Memory::Import { bytes } = memory {
            weight = weight.wrapping_add(bytes.len());
        }
    }
    weight
}

// How many bytes a comparison reads.
fn weight_in(contents: &Contents) -> usize {
    match contents.as_slice() {
        Some(bytes) => bytes.len(),
        None => 0,
    }
}

/// Whether a comparison of all these reads more bytes than so many.
pub(crate) fn are_more(loaded: &[Contents], count: usize) -> bool {
    let mut left = count;
    for contents in loaded {
        let weight = weight_in(contents);
        if weight > left {
            return true;
        }
        left -= weight;
    }
    false
}
