//! The units that get a place in the heap.

ghost use Rattle.std.specs.Prelude.{◌≡◌, ◌<◌, ◌^◌, ◌++◌, [], ◌∷◌, map, length, IfOk, OnOk, if◌then◌else◌};
ghost use Rattle.std.specs.List.{All, filter, range_with_len};
ghost use Rattle.base.specs.Shapes.{shape_at, bytes_of};
ghost use Rattle.compile_groups.specs.Internal.Buckets.{has_place};

use crate::Use;
use crate::buckets::Buckets;
use base::{List, NoMemory, Shape, shape_at};
use std::alloc::Global;

// The unit has uses and is no import.
fn has_place(imports: &[bool], by_unit: &Buckets<Use>, unit: u32) -> bool
    requires imports { unit < length imports.now }
    requires uses { unit < length by_unit.now }
    ensures { result ≡ has_place imports.now by_unit.now unit }
{
    !by_unit.of(unit).is_empty() && !imports[unit as usize]
}

// The unit, if it gets a place.
fn push_placed(
    list: &mut List<u32>,
    imports: &[bool],
    by_unit: &Buckets<Use>,
    unit: u32,
) -> Result<(), NoMemory>
    requires imports { unit < length imports.now }
    requires uses { unit < length by_unit.now }
    ensures { OnOk result (list.new ≡ (if has_place imports.now by_unit.now unit then list.old ++ unit ∷ [] else list.old)) }
{
    if has_place(imports, by_unit, unit) {
        list.push(unit)?;
    }
    Ok(())
}

/// The units that have uses and are no imports.
pub(crate) fn placed(
    alloc: Global,
    units: u32,
    imports: &[bool],
    by_unit: &Buckets<Use>,
) -> Result<List<u32>, NoMemory>
    requires imports { length imports.now ≡ units }
    requires uses { length by_unit.now ≡ units }
    ensures { IfOk result (λ placed. placed ≡ filter (has_place imports.now by_unit.now) (range_with_len 0 units)) }
{
    let mut placed = List::new(alloc);
    for unit in 0..units {
        push_placed(&mut placed, imports, by_unit, unit)?;
    }
    Ok(placed)
}

/// The number of bytes of each of these units.
pub(crate) fn sizes(alloc: Global, shapes: &[Shape], units: &[u32]) -> Result<List<u32>, NoMemory>
    requires within { All (λ unit. unit < length shapes.now) units.now }
    requires small { All (λ unit. bytes_of (shape_at shapes.now unit) < 2 ^ 32) units.now }
    ensures { IfOk result (λ sizes. sizes ≡ map (λ unit. bytes_of (shape_at shapes.now unit)) units.now) }
{
    let mut sizes = List::new(alloc);
    for unit in units {
        sizes.push(shape_at(shapes, *unit).bytes() as u32)?;
    }
    Ok(sizes)
}
