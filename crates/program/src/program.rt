//! A program: memories, pieces of them, queues with what is submitted to them, and what is read back.

ghost use Rattle.std.specs.Prelude.{◌≡◌, IfOk};
ghost use Rattle.program.specs.Rules.{shapes_of};

use base::{Family, List, NoMemory, Op, Shape};
use std::alloc::Global;
use vk::{Layouts, Masks, Sharing, Stages};

/// Device memory. An import holds bytes that the host wrote before submission.
#[derive(Debug, Drop)]
pub enum Memory {
    /// The size is in bytes.
    Plain { size: u32 },
    Import { bytes: List<u8> },
}

/// A buffer or one layer of an image, in the bytes of a memory from an offset on.
#[derive(Clone, Copy, Debug, PartialEq, Eq)]
pub struct Piece {
    pub shape: Shape,
    /// The number of the memory.
    pub memory: u32,
    /// In bytes.
    pub offset: u32,
    pub sharing: Sharing,
}

/// A wait for a queue's timeline to reach a value.
#[derive(Clone, Copy, Debug, PartialEq, Eq)]
pub struct WaitFor {
    /// The number of the queue whose timeline it is.
    pub queue: u32,
    pub value: u64,
    /// The stages that wait.
    pub stages: Stages,
}

/// A step of the own timeline to a value.
#[derive(Clone, Copy, Debug, PartialEq, Eq)]
pub struct Signal {
    pub value: u64,
    /// The stages that are waited for.
    pub stages: Stages,
}

/// Half of a transfer of ownership from one queue family to another. Layouts stand at an image alone.
#[derive(Clone, Copy, Debug, PartialEq, Eq)]
pub struct Transfer {
    /// The number of the piece.
    pub piece: u32,
    pub from_family: Family,
    pub to_family: Family,
    pub layouts: Option<Layouts>,
    pub masks: Masks,
}

/// A command, a barrier, or half of a transfer of ownership. Pieces are named by their numbers.
#[derive(Debug, Drop)]
pub enum Item {
    Command(Op<u32>),
    /// A barrier on all memory.
    Global(Masks),
    BufferBarrier(u32, Masks),
    ImageBarrier(u32, Layouts, Masks),
    /// On a queue of the old family.
    Release(Transfer),
    /// On a queue of the new family.
    Acquire(Transfer),
}

/// What is submitted at once: the waits come before the items, and these before the signal.
#[derive(Debug, Drop)]
pub struct Batch {
    pub waits: List<WaitFor>,
    pub items: List<Item>,
    pub signal: Option<Signal>,
}

/// A queue and its batches in the order of submission.
#[derive(Debug, Drop)]
pub struct Queue {
    pub family: Family,
    pub batches: List<Batch>,
}

/// Submissions to all queues, over numbered memories and pieces. Readbacks are the numbers of pieces that the host reads at
/// the end.
#[derive(Debug, Drop)]
pub struct Program {
    pub memories: List<Memory>,
    pub pieces: List<Piece>,
    pub queues: List<Queue>,
    pub readbacks: List<u32>,
}

impl Memory {
    fn copy(&self, alloc: Global) -> Result<Memory, NoMemory>
        ensures { IfOk result (λ memory. memory ≡ self.now) }
    {
        Ok(match self {
            Memory::Plain { size } => Memory::Plain { size: *size },
            Memory::Import { bytes } => Memory::Import {
                bytes: bytes.copy(alloc)?,
            },
        })
    }
}

impl Item {
    /// A copy; want of memory is the one refusal.
    pub fn copy(&self, alloc: Global) -> Result<Item, NoMemory>
        ensures { IfOk result (λ item. item ≡ self.now) }
    {
        Ok(match self {
            Item::Command(op) => Item::Command(op.copy(alloc)?),
            Item::Global(masks) => Item::Global(*masks),
            Item::BufferBarrier(piece, masks) => Item::BufferBarrier(*piece, *masks),
            Item::ImageBarrier(piece, layouts, masks) => {
                Item::ImageBarrier(*piece, *layouts, *masks)
            }
            Item::Release(transfer) => Item::Release(*transfer),
            Item::Acquire(transfer) => Item::Acquire(*transfer),
        })
    }
}

fn copy_memories(alloc: Global, memories: &List<Memory>) -> Result<List<Memory>, NoMemory>
    ensures { IfOk result (λ copies. copies ≡ memories.now) }
{
    let mut copies = List::new(alloc);
    for memory in memories.as_slice() {
        copies.push(memory.copy(alloc)?)?;
    }
    Ok(copies)
}

fn copy_items(alloc: Global, items: &List<Item>) -> Result<List<Item>, NoMemory>
    ensures { IfOk result (λ copies. copies ≡ items.now) }
{
    let mut copies = List::new(alloc);
    for item in items.as_slice() {
        copies.push(item.copy(alloc)?)?;
    }
    Ok(copies)
}

impl Batch {
    fn copy(&self, alloc: Global) -> Result<Batch, NoMemory>
        ensures { IfOk result (λ batch. batch ≡ self.now) }
    {
        Ok(Batch {
            waits: self.waits.copy(alloc)?,
            items: copy_items(alloc, &self.items)?,
            signal: self.signal,
        })
    }
}

fn copy_batches(alloc: Global, batches: &List<Batch>) -> Result<List<Batch>, NoMemory>
    ensures { IfOk result (λ copies. copies ≡ batches.now) }
{
    let mut copies = List::new(alloc);
    for batch in batches.as_slice() {
        copies.push(batch.copy(alloc)?)?;
    }
    Ok(copies)
}

impl Queue {
    fn copy(&self, alloc: Global) -> Result<Queue, NoMemory>
        ensures { IfOk result (λ queue. queue ≡ self.now) }
    {
        Ok(Queue {
            family: self.family,
            batches: copy_batches(alloc, &self.batches)?,
        })
    }
}

fn copy_queues(alloc: Global, queues: &List<Queue>) -> Result<List<Queue>, NoMemory>
    ensures { IfOk result (λ copies. copies ≡ queues.now) }
{
    let mut copies = List::new(alloc);
    for queue in queues.as_slice() {
        copies.push(queue.copy(alloc)?)?;
    }
    Ok(copies)
}

impl Program {
    /// The shape of each piece.
    pub fn shapes(&self, alloc: Global) -> Result<List<Shape>, NoMemory>
        ensures { IfOk result (λ shapes. shapes ≡ shapes_of self.now) }
    {
        let pieces = self.pieces.as_slice();
        let mut shapes = List::new(alloc);
        for piece in pieces {
            shapes.push(piece.shape)?;
        }
        Ok(shapes)
    }

    /// An equal program.
    pub fn copy(&self, alloc: Global) -> Result<Program, NoMemory>
        ensures { IfOk result (λ program. program ≡ self.now) }
    {
        Ok(Program {
            memories: copy_memories(alloc, &self.memories)?,
            pieces: self.pieces.copy(alloc)?,
            queues: copy_queues(alloc, &self.queues)?,
            readbacks: self.readbacks.copy(alloc)?,
        })
    }
}
