//! Whether queue families share a resource.

ghost use Rattle.std.specs.Prelude.{◌≡◌};
ghost use Rattle.vk.specs.Sharings.{is_shared};

/// Vulkan's sharing mode: an exclusive resource is owned by one queue family at a time and is handed on by ownership
/// transfers, a concurrent one needs none.
#[derive(Clone, Copy, Debug, PartialEq, Eq)]
pub enum Sharing {
    Exclusive,
    Concurrent,
}

impl Sharing {
    /// Whether no queue family has to own it.
    pub fn is_shared(self) -> bool
        ensures { result ≡ is_shared self }
    {
        match self {
            Sharing::Exclusive => false,
            Sharing::Concurrent => true,
        }
    }
}
