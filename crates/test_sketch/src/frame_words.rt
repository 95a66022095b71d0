//! Frames. The words before the first `|` are about the whole frame; each `|` begins a pass, whose first word is its
//! queue. A spot is a name, or a name, a slash and a layer.
//!
//! Each frame has the queues g (graphics) and t (transfer), the buffers b and c of 16 bytes, the image im of 2 by 2 texels
//! and two layers, the image one with one layer, and the import in of 4 bytes, which are all 1.
//!
//! | word | what it adds |
//! |---|---|
//! | `queue:NAME` | a compute queue |
//! | `queues:COUNT` | so many in place of those that are there |
//! | `buffer:NAME:SIZE`, `deep:NAME:LAYERS`, `image:NAME:SIDE:LAYERS` | a resource; a buffer with several layers is a fault |
//! | `import:NAME:SIZE:COUNT`, `picture:NAME:COUNT` | an import of so many bytes, into a buffer, into an image |
//! | `buffers:COUNT:SIZE` | the buffers r0, r1 and so on |
//! | `passes:COUNT` | the empty passes p0, p1 and so on |
//! | `exports:COUNT` | the exports e0, e1 and so on, which nothing has |
//! | `x:SPOT` | an export |
//! | `r:SPOT`, `w:SPOT`, `w:+SPOT` | in a pass: an entry that reads, changes or makes new |
//! | `effect` | in a pass: its side effect |
//! | `fills:COUNT` | in a pass: so many fills of x, which nothing has |
//! | any other | in a pass: the operation of that name |

use crate::SketchError;
use crate::op::op;
use crate::words::Word;
use base::{Family, List, Name, Op, Shape, Texel};
use frame::{Frame, Pass, QueueDecl, Resource, Spot, Write};
use std::alloc::Global;
use vk::Sharing;

fn name(text: &str) -> Result<Name, SketchError> {
    Name::read(text.as_bytes()).ok_or(SketchError::Word)
}

fn counted(alloc: Global, letter: &str, number: u32) -> Result<Name, SketchError> {
    match format!(in alloc; "{letter}{number}") {
        Ok(text) => name(text.as_str()),
        Err(_) => Err(SketchError::NoMemory),
    }
}

fn whole(name: Name) -> Spot {
    Spot { name, layer: None }
}

fn spot(text: &str) -> Result<Spot, SketchError> {
    let Some((resource, layer)) = text.split_once('/') else {
        return Ok(whole(name(text)?));
    };
    let layer = layer.parse().map_err(|_| SketchError::Word)?;
    Ok(Spot {
        name: name(resource)?,
        layer: Some(layer),
    })
}

fn write(text: &str) -> Result<Write<Spot>, SketchError> {
    let (what, fresh) = match text.strip_prefix('+') {
        Some(rest) => (rest, true),
        None => (text, false),
    };
    Ok(Write {
        what: spot(what)?,
        fresh,
    })
}

fn buffer(name: Name, size: u32) -> Resource {
    Resource {
        name,
        shape: Shape::Buffer { size },
        layers: 1,
        import: None,
        sharing: Sharing::Exclusive,
    }
}

fn image(name: Name, side: u32, layers: u32) -> Resource {
    Resource {
        name,
        shape: Shape::Image {
            width: side,
            height: side,
            texel: Texel::R32,
        },
        layers,
        import: None,
        sharing: Sharing::Concurrent,
    }
}

fn imported(alloc: Global, resource: Resource, count: u32) -> Result<Resource, SketchError> {
    let mut bytes = List::new(alloc);
    for _k in 0..count {
        bytes.push(1)?;
    }
    Ok(Resource {
        import: Some(bytes),
        ..resource
    })
}

fn resource(alloc: Global, word: Word) -> Result<Resource, SketchError> {
    let called = name(word.part(1)?)?;
    let number = word.number(2)?;
    match word.verb() {
        "buffer" => Ok(buffer(called, number)),
        "deep" => Ok(Resource {
            layers: number,
            ..buffer(called, 16)
        }),
        "image" => Ok(image(called, number, word.number(3)?)),
        "import" => imported(alloc, buffer(called, number), word.number(3)?),
        "picture" => imported(alloc, image(called, 1, 1), number),
        _ => Err(SketchError::Word),
    }
}

fn queue(name: Name, family: Family) -> QueueDecl {
    QueueDecl { name, family }
}

fn pass(alloc: Global, name: Name, queue: Name) -> Pass {
    Pass {
        name,
        queue,
        reads: List::new(alloc),
        writes: List::new(alloc),
        ops: List::new(alloc),
        side_effect: false,
    }
}

fn queues(alloc: Global, count: u32) -> Result<List<QueueDecl>, SketchError> {
    let mut list = List::new(alloc);
    for k in 0..count {
        list.push(queue(counted(alloc, "q", k)?, Family::Compute))?;
    }
    Ok(list)
}

fn buffers(alloc: Global, list: &mut List<Resource>, word: Word) -> Result<(), SketchError> {
    let size = word.number(2)?;
    for k in 0..word.number(1)? {
        list.push(buffer(counted(alloc, "r", k)?, size))?;
    }
    Ok(())
}

fn passes(alloc: Global, list: &mut List<Pass>, count: u32) -> Result<(), SketchError> {
    let on = name("g")?;
    for k in 0..count {
        list.push(pass(alloc, counted(alloc, "p", k)?, on))?;
    }
    Ok(())
}

fn exports(alloc: Global, list: &mut List<Spot>, count: u32) -> Result<(), SketchError> {
    for k in 0..count {
        list.push(whole(counted(alloc, "e", k)?))?;
    }
    Ok(())
}

// What a word about the whole frame declares.
fn declare(alloc: Global, frame: &mut Frame, word: Word) -> Result<(), SketchError> {
    match word.verb() {
        "queue" => {
            let called = name(word.part(1)?)?;
            frame.queues.push(queue(called, Family::Compute))?;
        }
        "queues" => frame.queues = queues(alloc, word.number(1)?)?,
        "buffers" => buffers(alloc, &mut frame.resources, word)?,
        "passes" => passes(alloc, &mut frame.passes, word.number(1)?)?,
        "exports" => exports(alloc, &mut frame.exports, word.number(1)?)?,
        "x" => frame.exports.push(spot(word.part(1)?)?)?,
        _ => frame.resources.push(resource(alloc, word)?)?,
    }
    Ok(())
}

fn operation(alloc: Global, word: Word) -> Result<Op<Spot>, SketchError> {
    op(alloc, word, |at| spot(word.part(at)?))
}

fn fills(alloc: Global, pass: &mut Pass, count: u32) -> Result<(), SketchError> {
    for _k in 0..count {
        pass.ops.push(operation(alloc, Word::new("fill:x:16"))?)?;
    }
    Ok(())
}

// What a word adds to a pass.
fn add(alloc: Global, pass: &mut Pass, word: Word) -> Result<(), SketchError> {
    match word.verb() {
        "r" => pass.reads.push(spot(word.part(1)?)?)?,
        "w" => pass.writes.push(write(word.part(1)?)?)?,
        "effect" => pass.side_effect = true,
        "fills" => fills(alloc, pass, word.number(1)?)?,
        _ => pass.ops.push(operation(alloc, word)?)?,
    }
    Ok(())
}

fn sketched_pass(alloc: Global, place: u32, line: &str) -> Result<Pass, SketchError> {
    let line = line.trim();
    let (on, rest) = line.split_once(' ').unwrap_or((line, ""));
    let mut pass = pass(alloc, counted(alloc, "p", place)?, name(on)?);
    for text in rest.split_whitespace() {
        add(alloc, &mut pass, Word::new(text))?;
    }
    Ok(pass)
}

// A frame without passes and exports.
fn bare(alloc: Global) -> Result<Frame, SketchError> {
    let mut queues = List::new(alloc);
    queues.push(queue(name("g")?, Family::Graphics))?;
    queues.push(queue(name("t")?, Family::Transfer))?;
    let mut resources = List::new(alloc);
    resources.push(buffer(name("b")?, 16))?;
    resources.push(buffer(name("c")?, 16))?;
    resources.push(image(name("im")?, 2, 2))?;
    resources.push(image(name("one")?, 2, 1))?;
    resources.push(imported(alloc, buffer(name("in")?, 4), 4)?)?;
    Ok(Frame {
        queues,
        resources,
        passes: List::new(alloc),
        exports: List::new(alloc),
    })
}

/// The frame of a line.
pub fn sketched_frame(alloc: Global, line: &str) -> Result<Frame, SketchError> {
    let mut frame = bare(alloc)?;
    let (declared, rest) = line.split_once('|').unwrap_or((line, ""));
    for text in declared.split_whitespace() {
        declare(alloc, &mut frame, Word::new(text))?;
    }
    let mut place = 0u32;
    for part in rest.split('|') {
        if !part.is_empty() {
            frame.passes.push(sketched_pass(alloc, place, part)?)?;
        }
        place = place.saturating_add(1);
    }
    Ok(frame)
}
