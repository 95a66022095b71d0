//! What is known of a frame's units and queues.

ghost use Rattle.std.specs.Prelude.{◌≡◌, ◌<◌, ◌^◌, IfOk};
ghost use Rattle.base.specs.Shapes.{bytes_of};
ghost use Rattle.base.specs.declared.shape.Shape.TheVariants.{Buffer};
ghost use Rattle.frame.specs.Numbered.{numbered};
ghost use Rattle.compile_groups.specs.Commands.{all_shapes};
ghost use Rattle.compile_groups.specs.Groups.{sharings_in, imports_in};

use base::{Family, List, NoMemory, Shape, shape_at};
use frame::ValidFrame;
use std::alloc::Global;
use vk::Sharing;

// The buffer that the host reads a unit of this shape from.
fn readback_of(shape: Shape) -> Shape
    requires { bytes_of shape < 2 ^ 32 }
    ensures { result ≡ Buffer (bytes_of shape) }
{
    Shape::Buffer {
        size: shape.bytes() as u32,
    }
}

/// The shapes of the units, and then of the buffers of the exports.
pub(crate) fn all_shapes(alloc: Global, frame: &ValidFrame) -> Result<List<Shape>, NoMemory>
    ensures { IfOk result (λ shapes. shapes ≡ all_shapes (numbered frame.now)) }
{
    let shapes = frame.shapes();
    let exports = frame.exports();
    let mut all = List::from_slice(alloc, shapes)?;
    for unit in exports {
        all.push(readback_of(shape_at(shapes, *unit)))?;
    }
    Ok(all)
}

/// How each unit is shared.
pub(crate) fn sharings(alloc: Global, frame: &ValidFrame) -> Result<List<Sharing>, NoMemory>
    ensures { IfOk result (λ sharings. sharings ≡ sharings_in (numbered frame.now)) }
{
    let mut sharings = List::new(alloc);
    for unit in 0..frame.unit_count() {
        sharings.push(frame.sharing(unit))?;
    }
    Ok(sharings)
}

/// Which units are imports.
pub(crate) fn imports(alloc: Global, frame: &ValidFrame) -> Result<List<bool>, NoMemory>
    ensures { IfOk result (λ imports. imports ≡ imports_in (numbered frame.now)) }
{
    let mut imports = List::new(alloc);
    for unit in 0..frame.unit_count() {
        imports.push(frame.is_import(unit))?;
    }
    Ok(imports)
}

/// The families of the queues.
pub(crate) fn families(alloc: Global, frame: &ValidFrame) -> Result<List<Family>, NoMemory>
    ensures { IfOk result (λ families. families ≡ (numbered frame.now).queues) }
{
    let mut families = List::new(alloc);
    for queue in 0..frame.queue_count() {
        families.push(frame.family(queue))?;
    }
    Ok(families)
}
