//! The units of a frame.

ghost use Rattle.std.specs.Prelude.{◌≡◌, ◌≤◌, ◌==◌, IfOk, map, replicate, is_some, length};
ghost use Rattle.std.specs.List.{flat_map, range_with_len};
ghost use Rattle.frame.specs.FirstFault.{shapes_of, sharings_of, imports_of};
ghost use Rattle.frame.specs.Units.{owners, spots_of, layer_spot};

use crate::{Frame, Resource, Sharing, Spot};
use base::{List, Name, NoMemory, Shape};
use std::alloc::Global;

#[tactic(auto, using(crate::proofs::Flat::copies_on))]
fn copies<T: Copy + Drop>(alloc: Global, item: T, count: u32) -> Result<List<T>, NoMemory>
    ensures { IfOk result (λ list. list ≡ replicate count item) }
{
    let mut list = List::new(alloc);
    for _k in 0..count {
        list.push(item)?;
    }
    Ok(list)
}

#[tactic(auto, using(crate::proofs::Flat::flat_on))]
fn resource_shapes(alloc: Global, resources: &[Resource]) -> Result<List<Shape>, NoMemory>
    ensures { IfOk result (λ list. list ≡ flat_map (λ r. replicate r.layers r.shape) resources.now) }
{
    let mut list = List::new(alloc);
    for resource in resources {
        let more = copies(alloc, resource.shape, resource.layers)?;
        list.extend_from_slice(&more)?;
    }
    Ok(list)
}

/// The shape of each unit.
#[tactic(auto, using(crate::proofs::Spread::shapes_spread))]
pub(crate) fn shapes(alloc: Global, frame: &Frame) -> Result<List<Shape>, NoMemory>
    ensures { IfOk result (λ list. list ≡ shapes_of frame.now) }
{
    resource_shapes(alloc, &frame.resources)
}

#[tactic(auto, using(crate::proofs::Flat::flat_on))]
fn resource_sharings(alloc: Global, resources: &[Resource]) -> Result<List<Sharing>, NoMemory>
    ensures { IfOk result (λ list. list ≡ flat_map (λ r. replicate r.layers r.sharing) resources.now) }
{
    let mut list = List::new(alloc);
    for resource in resources {
        let more = copies(alloc, resource.sharing, resource.layers)?;
        list.extend_from_slice(&more)?;
    }
    Ok(list)
}

/// Whether queue families share each unit.
#[tactic(auto, using(crate::proofs::Spread::sharings_spread))]
pub(crate) fn sharings(alloc: Global, frame: &Frame) -> Result<List<Sharing>, NoMemory>
    ensures { IfOk result (λ list. list ≡ sharings_of frame.now) }
{
    resource_sharings(alloc, &frame.resources)
}

#[tactic(auto, using(crate::proofs::Flat::flat_on))]
fn resource_imports(alloc: Global, resources: &[Resource]) -> Result<List<bool>, NoMemory>
    ensures { IfOk result (λ list. list ≡ flat_map (λ r. replicate r.layers (is_some r.import)) resources.now) }
{
    let mut list = List::new(alloc);
    for resource in resources {
        let more = copies(alloc, resource.import.is_some(), resource.layers)?;
        list.extend_from_slice(&more)?;
    }
    Ok(list)
}

/// Whether each unit is an import.
#[tactic(auto, using(crate::proofs::Spread::imports_spread))]
pub(crate) fn imports(alloc: Global, frame: &Frame) -> Result<List<bool>, NoMemory>
    ensures { IfOk result (λ list. list ≡ imports_of frame.now) }
{
    resource_imports(alloc, &frame.resources)
}

/// The resource of each unit.
#[tactic(auto, using(crate::proofs::Flat::owners_on))]
pub(crate) fn owners(alloc: Global, resources: &[Resource]) -> Result<List<u32>, NoMemory>
    requires { length resources.now ≤ 256 }
    ensures { IfOk result (λ list. list ≡ owners 0 resources.now) }
{
    let mut list = List::new(alloc);
    for (i, resource) in resources.iter().enumerate() {
        let more = copies(alloc, i as u32, resource.layers)?;
        list.extend_from_slice(&more)?;
    }
    Ok(list)
}

#[tactic(auto, using(crate::proofs::Flat::layers_on))]
fn layer_spots(alloc: Global, name: Name, layers: u32) -> Result<List<Spot>, NoMemory>
    ensures { IfOk result (λ list. list ≡ map (layer_spot name) (range_with_len 0 layers)) }
{
    let mut list = List::new(alloc);
    for layer in 0..layers {
        list.push(Spot {
            name,
            layer: Some(layer),
        })?;
    }
    Ok(list)
}

fn spots_of(alloc: Global, resource: &Resource) -> Result<List<Spot>, NoMemory>
    ensures { IfOk result (λ list. list ≡ spots_of resource.now) }
{
    if resource.layers == 1 {
        let mut list = List::new(alloc);
        list.push(Spot {
            name: resource.name,
            layer: None,
        })?;
        return Ok(list);
    }
    layer_spots(alloc, resource.name, resource.layers)
}

/// The name of each unit.
#[tactic(auto, using(crate::proofs::Flat::flat_on))]
pub(crate) fn spots(alloc: Global, resources: &[Resource]) -> Result<List<Spot>, NoMemory>
    ensures { IfOk result (λ list. list ≡ flat_map spots_of resources.now) }
{
    let mut list = List::new(alloc);
    for resource in resources {
        let more = spots_of(alloc, resource)?;
        list.extend_from_slice(&more)?;
    }
    Ok(list)
}
