//! What is persisted before the first window.

ghost use Rattle.std.specs.Prelude.{◌≡◌, [], IfOk, unwrap_or};
ghost use Rattle.base.specs.Walks.{first_in};
ghost use Rattle.flight.specs.Alone.{first_bytes, import_under};

use crate::holders::holder_in;
use base::{List, Name, NoMemory};
use frame::{Resource, ValidFrame};
use std::alloc::Global;

fn import_of(alloc: Global, resource: &Resource) -> Result<List<u8>, NoMemory>
    ensures { IfOk result (λ bytes. bytes ≡ unwrap_or resource.now.import []) }
{
    match &resource.import {
        Some(bytes) => bytes.copy(alloc),
        None => Ok(List::new(alloc)),
    }
}

#[tactic(auto, using(crate::proofs::Begins::import_at))]
fn import_under(alloc: Global, good: &ValidFrame, name: Name) -> Result<Option<List<u8>>, NoMemory>
    ensures { IfOk result (λ bytes. bytes ≡ import_under name 0 good.now) }
{
    let resources = &good.frame().resources;
    match holder_in(resources, name) {
        Some(k) => Ok(Some(import_of(alloc, &resources[k])?)),
        None => Ok(None),
    }
}

#[tactic(auto, using(base::proofs::Walks::first_on, base::proofs::Walks::found_on))]
fn first_import(
    alloc: Global,
    frames: &[ValidFrame],
    name: Name,
) -> Result<Option<List<u8>>, NoMemory>
    ensures { IfOk result (λ bytes. bytes ≡ first_in (import_under name) 0 frames.now) }
{
    for good in frames {
        if let Some(bytes) = import_under(alloc, good, name)? {
            return Ok(Some(bytes));
        }
    }
    Ok(None)
}

/// For each persisting name the import of the first frame that has the name.
pub(crate) fn first_bytes(
    alloc: Global,
    frames: &[ValidFrame],
    persist: &[Name],
) -> Result<List<Option<List<u8>>>, NoMemory>
    ensures { IfOk result (λ persisted. persisted ≡ first_bytes frames.now persist.now) }
{
    let mut persisted = List::new(alloc);
    for name in persist {
        persisted.push(first_import(alloc, frames, *name)?)?;
    }
    Ok(persisted)
}
