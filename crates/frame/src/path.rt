//! The path of a location.

ghost use Rattle.std.specs.Prelude.{◌≡◌, IfOk, [], ◌∷◌, ◌++◌, codes};
ghost use Rattle.base.specs.Paths.{entry};
ghost use Rattle.base.specs.declared.path.Leg.TheVariants.{Member};
ghost use Rattle.frame.specs.Paths.{operand_name, in_op, path_of, fault_of};

use crate::FrameFault;
use crate::location::{Location, Operand};
use crate::rule::Rule;
use base::{Broken, List, NoMemory, Path};
use std::alloc::Global;

fn operand_name(member: Operand) -> &'static [u8]
    ensures { result.now ≡ operand_name member }
{
    match member {
        Operand::Src => b"src",
        Operand::Mask => b"mask",
        Operand::A => b"a",
        Operand::B => b"b",
        Operand::Dst => b"dst",
    }
}

// A member of the frame.
fn member(alloc: Global, name: &[u8]) -> Result<Path, NoMemory>
    ensures { IfOk result (λ path. path ≡ Member name.now ∷ []) }
{
    let root: Path = List::new(alloc);
    root.member(alloc, name)
}

// An entry of a list of the frame.
fn entry(alloc: Global, list: &[u8], i: usize) -> Result<Path, NoMemory>
    ensures { IfOk result (λ path. path ≡ entry list.now i) }
{
    let root: Path = List::new(alloc);
    root.entry(alloc, list, i)
}

// A member of such an entry.
fn member_in(alloc: Global, list: &[u8], i: usize, name: &[u8]) -> Result<Path, NoMemory>
    ensures { IfOk result (λ path. path ≡ entry list.now i ++ Member name.now ∷ []) }
{
    entry(alloc, list, i)?.member(alloc, name)
}

// An entry of a list of a pass.
fn entry_in(alloc: Global, p: usize, list: &[u8], k: usize) -> Result<Path, NoMemory>
    ensures { IfOk result (λ path. path ≡ entry (codes "passes") p ++ entry list.now k) }
{
    entry(alloc, b"passes", p)?.entry(alloc, list, k)
}

// A member of an operation.
fn in_op(alloc: Global, p: usize, k: usize, name: &[u8]) -> Result<Path, NoMemory>
    ensures { IfOk result (λ path. path ≡ in_op p k name.now) }
{
    entry_in(alloc, p, b"ops", k)?.member(alloc, name)
}

fn path_of(alloc: Global, location: Location) -> Result<Path, NoMemory>
    ensures { IfOk result (λ path. path ≡ path_of location) }
{
    match location {
        Location::Queues => member(alloc, b"queues"),
        Location::Resources => member(alloc, b"resources"),
        Location::Passes => member(alloc, b"passes"),
        Location::Exports => member(alloc, b"exports"),
        Location::Queue(i) => entry(alloc, b"queues", i),
        Location::Resource(i) => entry(alloc, b"resources", i),
        Location::Import(i) => member_in(alloc, b"resources", i, b"import"),
        Location::Pass(p) => entry(alloc, b"passes", p),
        Location::PassQueue(p) => member_in(alloc, b"passes", p, b"queue"),
        Location::Read(p, k) => entry_in(alloc, p, b"reads", k),
        Location::Write(p, j) => entry_in(alloc, p, b"writes", j),
        Location::Ops(p) => member_in(alloc, b"passes", p, b"ops"),
        Location::Op(p, k) => in_op(alloc, p, k, b"op"),
        Location::Rects(p, k) => in_op(alloc, p, k, b"rects"),
        Location::Operand(p, k, operand) => in_op(alloc, p, k, operand_name(operand)),
        Location::Export(i) => entry(alloc, b"exports", i),
    }
}

/// The fault as it is printed.
pub(crate) fn fault_of(
    alloc: Global,
    broken: Broken<Rule, Location>,
) -> Result<FrameFault, NoMemory>
    ensures { IfOk result (λ fault. fault ≡ fault_of broken) }
{
    Ok(FrameFault {
        number: broken.rule.number(),
        limit: broken.limit,
        location: path_of(alloc, broken.location)?,
    })
}
