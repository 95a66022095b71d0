//! What the types of a program's parts say of them.

ghost use Rattle.file_program.specs.Memories.{FitsMemory};
ghost use Rattle.file_program.specs.Typed.{IsTypedPiece, IsTypedWait, IsTypedItem, IsTypedBatch, IsTypedQueue, IsTypedProgram};

use crate::batch::BatchForm;
use crate::item::ItemForm;
use crate::memory::MemoryForm;
use crate::piece::PieceForm;
use crate::queue::QueueForm;
use crate::wait::WaitForm;
use crate::whole_program::ProgramForm;
use file_json::{ListForm, NumberForm, Typed};
use file_ops::OpForm;
use file_shapes::HexForm;
use program::{Batch, Item, Memory, Piece, Program, Queue, WaitFor};

impl Typed for MemoryForm {
    type Of = Memory;

    ghost Says = { FitsMemory };

    fn look(memory: &Memory) {
        match memory {
            Memory::Plain { size } => NumberForm::look(size),
            Memory::Import { bytes } => HexForm::look(bytes),
        }
    }
}

impl Typed for PieceForm {
    type Of = Piece;

    ghost Says = { IsTypedPiece };

    fn look(piece: &Piece) {
        NumberForm::look(&piece.memory);
        NumberForm::look(&piece.offset);
    }
}

impl Typed for WaitForm {
    type Of = WaitFor;

    ghost Says = { IsTypedWait };

    fn look(wait: &WaitFor) {
        NumberForm::look(&wait.queue);
    }
}

impl Typed for ItemForm {
    type Of = Item;

    ghost Says = { IsTypedItem };

    fn look(item: &Item) {
        match item {
            Item::Command(op) => OpForm::<NumberForm>::look(op),
            Item::Global(_) => (),
            Item::BufferBarrier(piece, _) => NumberForm::look(piece),
            Item::ImageBarrier(piece, _, _) => NumberForm::look(piece),
            Item::Release(transfer) => NumberForm::look(&transfer.piece),
            Item::Acquire(transfer) => NumberForm::look(&transfer.piece),
        }
    }
}

impl Typed for BatchForm {
    type Of = Batch;

    ghost Says = { IsTypedBatch };

    fn look(batch: &Batch) {
        <ListForm<WaitForm>>::look(&batch.waits);
        <ListForm<ItemForm>>::look(&batch.items);
    }
}

impl Typed for QueueForm {
    type Of = Queue;

    ghost Says = { IsTypedQueue };

    fn look(queue: &Queue) {
        <ListForm<BatchForm>>::look(&queue.batches);
    }
}

impl Typed for ProgramForm {
    type Of = Program;

    ghost Says = { IsTypedProgram };

    fn look(program: &Program) {
        <ListForm<MemoryForm>>::look(&program.memories);
        <ListForm<PieceForm>>::look(&program.pieces);
        <ListForm<QueueForm>>::look(&program.queues);
        <ListForm<NumberForm>>::look(&program.readbacks);
    }
}
