//! The path of a location.

ghost use Rattle.std.specs.Prelude.{◌≡◌, IfOk};
ghost use Rattle.program.specs.Paths.{in_batch, path_of, fault_of};

use crate::ProgramFault;
use crate::location::Location;
use crate::rule::Rule;
use base::{Broken, List, NoMemory, Path};
use std::alloc::Global;

// A batch of a queue.
fn in_batch(alloc: Global, q: usize, b: usize) -> Result<Path, NoMemory>
    ensures { IfOk result (λ path. path ≡ in_batch q b) }
{
    let root: Path = List::new(alloc);
    root.entry(alloc, b"queues", q)?.entry(alloc, b"batches", b)
}

fn path_of(alloc: Global, location: Location) -> Result<Path, NoMemory>
    ensures { IfOk result (λ path. path ≡ path_of location) }
{
    let root: Path = List::new(alloc);
    match location {
        Location::Whole => Ok(root),
        Location::Queues => root.member(alloc, b"queues"),
        Location::Memories => root.member(alloc, b"memories"),
        Location::Pieces => root.member(alloc, b"pieces"),
        Location::Readbacks => root.member(alloc, b"readbacks"),
        Location::Memory(i) => root.entry(alloc, b"memories", i),
        Location::Piece(i) => root.entry(alloc, b"pieces", i),
        Location::Wait(q, b, k) => in_batch(alloc, q, b)?.entry(alloc, b"waits", k),
        Location::Item(q, b, k) => in_batch(alloc, q, b)?.entry(alloc, b"items", k),
        Location::Signal(q, b) => in_batch(alloc, q, b)?.member(alloc, b"signal"),
        Location::Readback(k) => root.entry(alloc, b"readbacks", k),
    }
}

/// The fault as it is printed.
pub(crate) fn fault_of(
    alloc: Global,
    broken: Broken<Rule, Location>,
) -> Result<ProgramFault, NoMemory>
    ensures { IfOk result (λ fault. fault ≡ fault_of broken) }
{
    Ok(ProgramFault {
        number: broken.rule.number(),
        limit: broken.limit,
        location: path_of(alloc, broken.location)?,
    })
}
