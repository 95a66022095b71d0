//! The resources of a window.

ghost use Rattle.std.specs.Prelude.{◌≡◌, ◌++◌, ◌<◌, [], IfOk, OnOk, length, unwrap_or};
ghost use Rattle.flight.specs.Internal.Left.{set_held, source_by};
ghost use Rattle.flight.specs.Internal.WindowParts.{resources_by};
ghost use Rattle.law_window.specs.Resources.{renamed_resources, set_import};
ghost use Rattle.law_window.specs.NamedSources.{named_import};

use crate::names::numbered_name;
use base::{List, Name, NoMemory};
use frame::Resource;
use std::alloc::Global;

fn copied(alloc: Global, import: &Option<List<u8>>) -> Result<Option<List<u8>>, NoMemory>
    ensures { IfOk result (λ copy. copy ≡ import.now) }
{
    match import {
        None => Ok(None),
        Some(bytes) => Ok(Some(bytes.copy(alloc)?)),
    }
}

fn renamed(alloc: Global, resource: &Resource, name: Name) -> Result<Resource, NoMemory>
    ensures { IfOk result (λ other. other ≡ record resource.now { name = name }) }
{
    Ok(Resource {
        name,
        shape: resource.shape,
        layers: resource.layers,
        import: copied(alloc, &resource.import)?,
        sharing: resource.sharing,
    })
}

#[tactic(auto, using(crate::proofs::Walks::resource_on))]
fn renamed_resources(
    alloc: Global,
    i: usize,
    resources: &[Resource],
) -> Result<List<Resource>, NoMemory>
    requires { i < 10 }
    ensures { IfOk result (λ all. all ≡ renamed_resources i 0 resources.now) }
{
    let mut all = List::new(alloc);
    for (j, resource) in resources.iter().enumerate() {
        all.push(renamed(alloc, resource, numbered_name(i, j))?)?;
    }
    Ok(all)
}

// Where no resource has the number, nothing changes.
#[tactic(auto, using(crate::proofs::Walks::import_set, crate::proofs::Walks::import_unset))]
fn set_import(resources: &mut Vec<Resource>, k: usize, import: Option<List<u8>>)
    ensures { resources.new.items ≡ set_import resources.old.items k import }
{
    if k < resources.len() {
        resources[k].import = import;
    }
}

// The bytes that are persisted are an import; those that are in a resource of the window are copied by a pass.
fn import_of(
    alloc: Global,
    persisted: &Option<List<u8>>,
    left: Option<Name>,
) -> Result<Option<List<u8>>, NoMemory>
    ensures { IfOk result (λ import. import ≡ named_import (source_by (unwrap_or persisted.now []) left)) }
{
    match left {
        Some(_) => Ok(None),
        None => match persisted {
            Some(bytes) => Ok(Some(bytes.copy(alloc)?)),
            None => Ok(Some(List::new(alloc))),
        },
    }
}

// The import of the resource that has a persisting name, where one has.
fn set_held(
    alloc: Global,
    resources: &mut Vec<Resource>,
    holder: Option<usize>,
    persisted: &Option<List<u8>>,
    left: Option<Name>,
) -> Result<(), NoMemory>
    ensures { OnOk result (resources.new.items ≡ set_held holder (named_import (source_by (unwrap_or persisted.now []) left)) resources.old.items) }
{
    if let Some(k) = holder {
        set_import(resources, k, import_of(alloc, persisted, left)?);
    }
    Ok(())
}

/// The resources of frame `i` of a window.
#[tactic(auto, using(crate::proofs::Walks::holder_on))]
pub(crate) fn resources_by(
    alloc: Global,
    i: usize,
    holders: &[Option<usize>],
    persisted: &[Option<List<u8>>],
    left: &[Option<Name>],
    resources: &[Resource],
) -> Result<List<Resource>, NoMemory>
    requires few { i < 10 }
    requires persisted { length holders.now ≡ length persisted.now }
    requires left { length holders.now ≡ length left.now }
    ensures { IfOk result (λ all. all ≡ resources_by i holders.now persisted.now left.now resources.now) }
{
    let mut all = renamed_resources(alloc, i, resources)?.into_vec();
    for (k, holder) in holders.iter().enumerate() {
        set_held(alloc, &mut all, *holder, &persisted[k], left[k])?;
    }
    Ok(List::from_vec(all))
}

/// Adds all items of another list at the end.
pub(crate) fn append(all: &mut List<Resource>, more: List<Resource>) -> Result<(), NoMemory>
    ensures { OnOk result (all.new ≡ all.old ++ more) }
{
    for resource in more.into_vec() {
        all.push(resource)?;
    }
    Ok(())
}
