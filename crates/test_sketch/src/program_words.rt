//! Programs. The words before the first `;` are about the whole program; each `;` begins a queue, whose first word is its
//! family.
//!
//! | word | what it adds |
//! |---|---|
//! | `plain:SIZE`, `import:SIZE` | a memory; an import's bytes are 1 |
//! | `buffer:SIZE:MEMORY:OFFSET`, `image:WIDTH:HEIGHT:TEXEL:MEMORY:OFFSET` | a piece; `shared` behind it makes it concurrent |
//! | `read:PIECE` | a read-back |
//! | `batch` | a batch; the first one of a queue needs none |
//! | `wait:QUEUE:VALUE:STAGES`, `signal:VALUE:STAGES` | a wait, the signal; without stages it is ALL_COMMANDS |
//! | `all:MASKS`, `bar:PIECE:MASKS`, `turn:PIECE:LAYOUTS:MASKS` | a barrier on all memory, a buffer, an image |
//! | `release:PIECE:FAMILIES:MASKS`, `acquire:PIECE:FAMILIES:MASKS` | half of a transfer; layouts may stand behind it |
//! | any other | the operation of that name |

use crate::SketchError;
use crate::op::op;
use crate::words::{Word, families, family, layouts, masks, stages, texel};
use base::{List, Shape};
use program::{Batch, Item, Memory, Piece, Program, Queue, Signal, Transfer, WaitFor};
use std::alloc::Global;
use vk::{Layouts, Sharing, Stages};

fn ones(alloc: Global, count: u32) -> Result<List<u8>, SketchError> {
    let mut bytes = List::new(alloc);
    for _k in 0..count {
        bytes.push(1)?;
    }
    Ok(bytes)
}

fn sharing(word: Word, at: usize) -> Sharing {
    match word.part(at) {
        Ok("shared") => Sharing::Concurrent,
        _ => Sharing::Exclusive,
    }
}

fn buffer(word: Word) -> Result<Piece, SketchError> {
    Ok(Piece {
        shape: Shape::Buffer {
            size: word.number(1)?,
        },
        memory: word.number(2)?,
        offset: word.number(3)?,
        sharing: sharing(word, 4),
    })
}

fn image(word: Word) -> Result<Piece, SketchError> {
    Ok(Piece {
        shape: Shape::Image {
            width: word.number(1)?,
            height: word.number(2)?,
            texel: texel(word.part(3)?)?,
        },
        memory: word.number(4)?,
        offset: word.number(5)?,
        sharing: sharing(word, 6),
    })
}

// What a word about the whole program declares.
fn declare(alloc: Global, program: &mut Program, word: Word) -> Result<(), SketchError> {
    match word.verb() {
        "plain" => {
            let size = word.number(1)?;
            program.memories.push(Memory::Plain { size })?;
        }
        "import" => {
            let bytes = ones(alloc, word.number(1)?)?;
            program.memories.push(Memory::Import { bytes })?;
        }
        "buffer" => program.pieces.push(buffer(word)?)?,
        "image" => program.pieces.push(image(word)?)?,
        "read" => program.readbacks.push(word.number(1)?)?,
        _ => return Err(SketchError::Word),
    }
    Ok(())
}

fn stages_at(word: Word, at: usize) -> Result<Stages, SketchError> {
    match word.part(at) {
        Ok(text) => stages(text),
        Err(_) => Ok(Stages::ALL_COMMANDS),
    }
}

fn wait(word: Word) -> Result<WaitFor, SketchError> {
    Ok(WaitFor {
        queue: word.number(1)?,
        value: word.value(2)?,
        stages: stages_at(word, 3)?,
    })
}

fn signal(word: Word) -> Result<Signal, SketchError> {
    Ok(Signal {
        value: word.value(1)?,
        stages: stages_at(word, 2)?,
    })
}

fn layouts_at(word: Word, at: usize) -> Result<Option<Layouts>, SketchError> {
    match word.part(at) {
        Ok(text) => Ok(Some(layouts(text)?)),
        Err(_) => Ok(None),
    }
}

fn transfer(word: Word) -> Result<Transfer, SketchError> {
    let (from_family, to_family) = families(word.part(2)?)?;
    Ok(Transfer {
        piece: word.number(1)?,
        from_family,
        to_family,
        layouts: layouts_at(word, 4)?,
        masks: masks(word.part(3)?)?,
    })
}

fn item(alloc: Global, word: Word) -> Result<Item, SketchError> {
    Ok(match word.verb() {
        "all" => Item::Global(masks(word.part(1)?)?),
        "bar" => Item::BufferBarrier(word.number(1)?, masks(word.part(2)?)?),
        "turn" => Item::ImageBarrier(
            word.number(1)?,
            layouts(word.part(2)?)?,
            masks(word.part(3)?)?,
        ),
        "release" => Item::Release(transfer(word)?),
        "acquire" => Item::Acquire(transfer(word)?),
        _ => Item::Command(op(alloc, word, |at| word.number(at))?),
    })
}

fn empty_batch(alloc: Global) -> Batch {
    Batch {
        waits: List::new(alloc),
        items: List::new(alloc),
        signal: None,
    }
}

// What a word adds to a batch.
fn submit(alloc: Global, batch: &mut Batch, word: Word) -> Result<(), SketchError> {
    match word.verb() {
        "wait" => batch.waits.push(wait(word)?)?,
        "signal" => batch.signal = Some(signal(word)?),
        _ => batch.items.push(item(alloc, word)?)?,
    }
    Ok(())
}

fn batches(alloc: Global, line: &str) -> Result<List<Batch>, SketchError> {
    let mut batches = List::new(alloc);
    let mut batch = empty_batch(alloc);
    for text in line.split_whitespace() {
        let word = Word::new(text);
        if word.verb() == "batch" {
            batches.push(batch)?;
            batch = empty_batch(alloc);
        } else {
            submit(alloc, &mut batch, word)?;
        }
    }
    batches.push(batch)?;
    Ok(batches)
}

fn queue(alloc: Global, line: &str) -> Result<Queue, SketchError> {
    let line = line.trim();
    let (on, rest) = line.split_once(' ').unwrap_or((line, ""));
    Ok(Queue {
        family: family(on)?,
        batches: batches(alloc, rest)?,
    })
}

/// The program of a line.
pub fn sketched_program(alloc: Global, line: &str) -> Result<Program, SketchError> {
    let mut program = Program {
        memories: List::new(alloc),
        pieces: List::new(alloc),
        queues: List::new(alloc),
        readbacks: List::new(alloc),
    };
    for (place, part) in line.split(';').enumerate() {
        if place > 0 {
            program.queues.push(queue(alloc, part)?)?;
        } else {
            for text in part.split_whitespace() {
                declare(alloc, &mut program, Word::new(text))?;
            }
        }
    }
    Ok(program)
}
