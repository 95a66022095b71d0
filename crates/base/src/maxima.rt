//! What a file may have at most.

/// Queues.
pub const MAX_QUEUES: usize = 4;

/// Rectangles of all draws together.
pub const MAX_RECTS: usize = 4096;

/// Texels along a side of an image.
pub const MAX_SIDE: u32 = 4096;

/// Bytes of a buffer or of one layer of an image.
pub const MAX_SIZE: u128 = 16_777_216;

/// Layers of an image.
pub const MAX_LAYERS: u32 = 8;

/// Buffers and layers of images.
pub const MAX_UNITS: u32 = 256;

/// Passes.
pub const MAX_PASSES: usize = 256;

/// Operations of all passes together.
pub const MAX_OPS: usize = 256;

/// Buffers and layers that are exported.
pub const MAX_EXPORTS: u32 = 32;

/// Bytes of all resources of a frame together.
pub const MAX_RESOURCE_BYTES: u128 = 268_435_456;

/// Memories.
pub const MAX_MEMORIES: usize = 512;

/// Pieces of all memories together.
pub const MAX_PIECES: usize = 512;

/// Nodes: waits, items, signals and readbacks.
pub const MAX_NODES: usize = 20_000;

/// Readbacks.
pub const MAX_READBACKS: usize = 32;

/// Bytes of all memories together.
pub const MAX_MEMORY_BYTES: u128 = 805_306_368;
