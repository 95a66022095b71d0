//! A frame as it is declared, with names in place of numbers.

ghost use Rattle.std.specs.Prelude.{◌≡◌, IfOk};

use base::{Family, List, Name, NoMemory, Op, Shape};
use std::alloc::Global;
use vk::Sharing;

/// A buffer, a whole image, or one layer of an image: a location where a resource is named. Without a layer it stands for
/// all layers of its resource.
#[derive(Clone, Copy, Debug, PartialEq, Eq, Hash)]
pub struct Spot {
    pub name: Name,
    pub layer: Option<u32>,
}

/// A queue by its name.
#[derive(Clone, Copy, Debug)]
pub struct QueueDecl {
    pub name: Name,
    pub family: Family,
}

/// A buffer, or an image with layers of one shape. An import is the bytes that the host wrote into a buffer before the
/// frame.
#[derive(Debug, Drop)]
pub struct Resource {
    pub name: Name,
    pub shape: Shape,
    /// 1 for a buffer.
    pub layers: u32,
    pub import: Option<List<u8>>,
    pub sharing: Sharing,
}

/// A declared write: of new contents, or of a change of those that are there.
#[derive(Clone, Copy, Debug)]
pub struct Write<R> {
    pub what: R,
    /// True for new contents.
    pub fresh: bool,
}

/// Operations on one queue, with what they read and write.
#[derive(Debug, Drop)]
pub struct Pass {
    pub name: Name,
    pub queue: Name,
    pub reads: List<Spot>,
    pub writes: List<Write<Spot>>,
    pub ops: List<Op<Spot>>,
    /// The pass is kept also where no export depends on it.
    pub side_effect: bool,
}

/// All that is declared for one picture: passes in the order in which they are meant, what they work on and where they
/// run, and which resources come out.
#[derive(Debug, Drop)]
pub struct Frame {
    pub queues: List<QueueDecl>,
    pub resources: List<Resource>,
    pub passes: List<Pass>,
    pub exports: List<Spot>,
}

impl Resource {
    fn copy(&self, alloc: Global) -> Result<Resource, NoMemory>
        ensures { IfOk result (λ resource. resource ≡ self.now) }
    {
        let import = match &self.import {
            None => None,
            Some(bytes) => Some(bytes.copy(alloc)?),
        };
        Ok(Resource {
            name: self.name,
            shape: self.shape,
            layers: self.layers,
            import,
            sharing: self.sharing,
        })
    }
}

fn copy_resources(alloc: Global, resources: &List<Resource>) -> Result<List<Resource>, NoMemory>
    ensures { IfOk result (λ copies. copies ≡ resources.now) }
{
    let mut copies = List::new(alloc);
    for resource in resources.as_slice() {
        copies.push(resource.copy(alloc)?)?;
    }
    Ok(copies)
}

fn copy_ops(alloc: Global, ops: &List<Op<Spot>>) -> Result<List<Op<Spot>>, NoMemory>
    ensures { IfOk result (λ copies. copies ≡ ops.now) }
{
    let mut copies = List::new(alloc);
    for op in ops.as_slice() {
        copies.push(op.copy(alloc)?)?;
    }
    Ok(copies)
}

impl Pass {
    fn copy(&self, alloc: Global) -> Result<Pass, NoMemory>
        ensures { IfOk result (λ pass. pass ≡ self.now) }
    {
        Ok(Pass {
            name: self.name,
            queue: self.queue,
            reads: self.reads.copy(alloc)?,
            writes: self.writes.copy(alloc)?,
            ops: copy_ops(alloc, &self.ops)?,
            side_effect: self.side_effect,
        })
    }
}

fn copy_passes(alloc: Global, passes: &List<Pass>) -> Result<List<Pass>, NoMemory>
    ensures { IfOk result (λ copies. copies ≡ passes.now) }
{
    let mut copies = List::new(alloc);
    for pass in passes.as_slice() {
        copies.push(pass.copy(alloc)?)?;
    }
    Ok(copies)
}

impl Frame {
    /// An equal frame.
    pub fn copy(&self, alloc: Global) -> Result<Frame, NoMemory>
        ensures { IfOk result (λ frame. frame ≡ self.now) }
    {
        Ok(Frame {
            queues: self.queues.copy(alloc)?,
            resources: copy_resources(alloc, &self.resources)?,
            passes: copy_passes(alloc, &self.passes)?,
            exports: self.exports.copy(alloc)?,
        })
    }
}
