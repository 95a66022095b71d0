//! The sizes of memories.

ghost use Rattle.std.specs.Prelude.{◌≡◌, IfOk};
ghost use Rattle.device_drive.specs.Tended.{sizes_of};
ghost use Rattle.program.specs.Limits.{memory_bytes};
ghost use Rattle.program.specs.Obeys.{IsSmall};

use base::{List, NoMemory};
use program::{Memory, Program};
use std::alloc::Global;

/// The size of a memory, in bytes.
pub fn size_of(memory: &Memory) -> usize
    ensures { result ≡ memory_bytes memory.now }
{
    match memory {
        Memory::Plain { size } => *size as usize,
        Memory::Import { bytes } => bytes.len(),
    }
}

/// The sizes of the memories, in bytes.
pub fn sizes_of(alloc: Global, program: &Program) -> Result<List<u32>, NoMemory>
    requires { IsSmall program.now }
    ensures { IfOk result (λ sizes. sizes ≡ sizes_of program.now) }
{
    let mut sizes = List::new(alloc);
    for memory in program.memories.as_slice() {
        sizes.push(size_of(memory) as u32)?;
    }
    Ok(sizes)
}
