//! The placed resources in rising order of their offsets.

ghost use Rattle.std.specs.Prelude.{◌<◌, length};
ghost use Rattle.std.specs.List.{All};
ghost use Rattle.compile_heap.specs.Internal.Rising.{IsRising, IsIndex};

/// Where a resource that begins at this offset comes: behind those that begin no later.
pub(crate) fn index_of(offsets: &[u32], placed: &[usize], offset: u32) -> usize
    requires placed { All (λ j. j < length offsets.now) placed.now }
    requires rising { IsRising offsets.now placed.now }
    ensures { IsIndex offsets.now placed.now offset result }
{
    for (index, j) in placed.iter().enumerate() {
        if offset < offsets[*j] {
            return index;
        }
    }
    placed.len()
}
