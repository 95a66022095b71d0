//! As what a command touches a resource.

/// The part that a resource has in a command. It decides the stage and the accesses by which the resource is loaded and
/// stored, and the layout that an image must have.
#[derive(Clone, Copy, Debug, PartialEq, Eq)]
pub enum Role {
    CopyRead,
    CopyWrite,
    /// The destination of a fill or a clear.
    ClearWrite,
    /// An image that a kernel reads.
    Sampled,
    /// A buffer that a kernel reads.
    StorageRead,
    StorageWrite,
    /// The image that a draw changes. With `load` its old texels are read first.
    Attachment { load: bool },
}
