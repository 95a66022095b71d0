//! From the names of resources to their units.

ghost use Rattle.std.specs.Prelude.{◌≡◌, ◌≤◌, ◌<◌, ◌+◌, IfOk, IfErr, IfSome, None, Some, map, slice_get};
ghost use Rattle.std.specs.List.{All};
ghost use Rattle.frame.specs.Repeats.{first_repeat};
ghost use Rattle.frame.specs.Units.{Numbering, numbering, stretches, stretch_of, layers_of, layer_unit, span_in, span_of, unit_of};
ghost use Rattle.frame.specs.Unknowns.{has_layer, picks_one, is_known, is_known_unit};

use crate::numbered::{Span, Stretch};
use crate::{Frame, Resource, Spot};
use base::{List, Name, NoMemory};
use indexmap::IndexSet;
use std::alloc::Global;
use std::marker::Model;

/// The names of a frame's resources, and beside each where its units stand.
#[derive(Drop)]
pub(crate) struct Table {
    names: IndexSet<Name>,
    stretches: List<Stretch>,
}

impl Model for Table {
    ghost use Rattle.std.specs.Prelude.{◌+◌, ◌≤◌};
    ghost use Rattle.std.specs.List.{All};
    ghost use Rattle.frame.specs.Units.{Numbering};

    ghost Value = { Numbering };

    ghost view = { λ t. record { names = t.names.keys; stretches = t.stretches } };

    ghost invariant = { λ t. All (λ s. s.first + s.layers ≤ 256) t.stretches };
}

/// The names as a table, or the position of the first that stands before it too.
#[tactic(auto, using(base::proofs::Walks::first_on))]
pub(crate) fn distinct(
    alloc: Global,
    names: &[Name],
) -> Result<Result<IndexSet<Name>, usize>, NoMemory>
    ensures table { IfOk result (λ found. IfOk found (λ table. (table.keys ≡ names.now) × (first_repeat names.now ≡ None))) }
    ensures repeat { IfOk result (λ found. IfErr found (λ at. first_repeat names.now ≡ Some at)) }
{
    let mut seen = IndexSet::new(alloc);
    for (i, name) in names.iter().enumerate() {
        let (_, added) = seen.insert_full(*name)?;
        if !added {
            return Ok(Err(i));
        }
    }
    Ok(Ok(seen))
}

fn resource_names(alloc: Global, frame: &Frame) -> Result<List<Name>, NoMemory>
    ensures { IfOk result (λ names. names ≡ map (λ r. r.name) frame.now.resources) }
{
    let mut names = List::new(alloc);
    for resource in frame.resources.iter() {
        names.push(resource.name)?;
    }
    Ok(names)
}

#[tactic(auto, using(crate::proofs::Stretches::stretches_on, crate::proofs::Stretches::few_on, crate::proofs::Stretches::few_here, crate::proofs::Stretches::all_small))]
fn stretches(alloc: Global, resources: &[Resource]) -> Result<List<Stretch>, NoMemory>
    requires { layers_of resources.now ≤ 256 }
    ensures all { IfOk result (λ list. list ≡ stretches 0 resources.now) }
    ensures small { IfOk result (λ list. All (λ s. s.first + s.layers ≤ 256) list) }
{
    let mut list = List::new(alloc);
    let mut first = 0;
    for resource in resources {
        list.push(Stretch {
            first,
            layers: resource.layers,
            is_image: resource.shape.is_image(),
        })?;
        first += resource.layers;
    }
    Ok(list)
}

impl Table {
    /// The table of a frame, or the position of the first resource whose name stands before it too.
    pub fn new(alloc: Global, frame: &Frame) -> Result<Result<Table, usize>, NoMemory>
        requires { layers_of frame.now.resources ≤ 256 }
        ensures none { IfOk result (λ found. IfOk found (λ table. first_repeat (map (λ r. r.name) frame.now.resources) ≡ None)) }
        ensures table { IfOk result (λ found. IfOk found (λ table. table ≡ numbering frame.now)) }
        ensures repeat { IfOk result (λ found. IfErr found (λ at. first_repeat (map (λ r. r.name) frame.now.resources) ≡ Some at)) }
    {
        let names = resource_names(alloc, frame)?;
        match distinct(alloc, &names)? {
            Ok(names) => Ok(Ok(Table {
                names,
                stretches: stretches(alloc, &frame.resources)?,
            })),
            Err(at) => Ok(Err(at)),
        }
    }

    fn stretch_of(&self, name: Name) -> Option<Stretch>
        ensures stretch { result ≡ stretch_of self.now name }
        ensures small { IfSome result (λ s. s.first + s.layers ≤ 256) }
    {
        match self.names.get_index_of(&name) {
            Some(at) => stretch_at(&self.stretches, at),
            None => None,
        }
    }

    pub fn is_known(&self, spot: Spot) -> bool
        ensures { result ≡ is_known self.now spot }
    {
        match self.stretch_of(spot.name) {
            Some(stretch) => has_layer(spot.layer, stretch),
            None => false,
        }
    }

    /// Whether the spot is one unit.
    pub fn is_known_unit(&self, spot: Spot) -> bool
        ensures { result ≡ is_known_unit self.now spot }
    {
        match self.stretch_of(spot.name) {
            Some(stretch) => picks_one(spot.layer, stretch),
            None => false,
        }
    }

    /// The units that an entry stands for.
    pub fn span_of(&self, spot: Spot) -> Span
        ensures { result ≡ span_of self.now spot }
    {
        match self.stretch_of(spot.name) {
            Some(stretch) => span_in(spot.layer, stretch),
            None => Span { first: 0, end: 0 },
        }
    }

    /// The unit that an operand stands for.
    pub fn unit_of(&self, spot: Spot) -> u32
        ensures { result ≡ unit_of self.now spot }
    {
        match self.stretch_of(spot.name) {
            Some(stretch) => layer_unit(stretch, spot.layer.unwrap_or(0)),
            None => 0,
        }
    }
}

fn stretch_at(stretches: &[Stretch], at: usize) -> Option<Stretch>
    ensures { result ≡ slice_get stretches.now at }
{
    stretches.get(at).copied()
}

fn has_layer(layer: Option<u32>, stretch: Stretch) -> bool
    ensures { result ≡ has_layer layer stretch }
{
    match layer {
        None => true,
        Some(layer) => stretch.is_image && layer < stretch.layers,
    }
}

fn picks_one(layer: Option<u32>, stretch: Stretch) -> bool
    ensures { result ≡ picks_one layer stretch }
{
    match layer {
        None => stretch.layers <= 1,
        Some(_) => has_layer(layer, stretch),
    }
}

fn layer_unit(stretch: Stretch, layer: u32) -> u32
    requires { stretch.first + stretch.layers ≤ 256 }
    ensures unit { result ≡ layer_unit stretch layer }
    ensures small { result < 256 }
{
    if layer < stretch.layers {
        stretch.first + layer
    } else {
        0
    }
}

fn span_in(layer: Option<u32>, stretch: Stretch) -> Span
    requires { stretch.first + stretch.layers ≤ 256 }
    ensures { result ≡ span_in layer stretch }
{
    match layer {
        None => Span {
            first: stretch.first,
            end: stretch.first + stretch.layers,
        },
        Some(layer) => one_unit(layer_unit(stretch, layer)),
    }
}

fn one_unit(unit: u32) -> Span
    requires { unit < 256 }
    ensures { result ≡ record { first = unit; end = unit + 1 } }
{
    Span {
        first: unit,
        end: unit + 1,
    }
}
