//! Names that stand twice, and entries that name one unit twice.

ghost use Rattle.std.specs.Prelude.{◌≡◌, ◌≤◌, ◌<◌, map, length, is_some, IfOk, IfErr, None, Some, true};
ghost use Rattle.std.specs.List.{list_any};
ghost use Rattle.std.specs.Option.{option_or, option_map};
ghost use Rattle.std.specs.Str.{bytes_eq};
ghost use Rattle.base.specs.Walks.{first_in};
ghost use Rattle.frame.specs.Clashes.{clash, first_clash};
ghost use Rattle.frame.specs.Repeats.{repeats_at, first_repeat, repeats_in, repeated};
ghost use Rattle.frame.specs.Units.{numbering, layers_of};
ghost use Rattle.frame.specs.declared.location.Location.TheVariants.{Export};

use crate::location::Location;
use crate::table::{Table, distinct};
use crate::{Frame, Pass, Spot, Write};
use base::{List, Name, NoMemory};
use indexmap::IndexSet;
use std::alloc::Global;

/// The position of the first name that stands before it too. Want of memory is its one refusal.
pub fn first_repeat(alloc: Global, names: &[Name]) -> Result<Option<usize>, NoMemory>
    ensures { IfOk result (λ location. location ≡ first_repeat names.now) }
{
    match distinct(alloc, names)? {
        Ok(_) => Ok(None),
        Err(at) => Ok(Some(at)),
    }
}

fn repeats_at(names: &[Name], at: usize, name: &Name) -> Option<usize>
    requires { at ≤ length names.now }
    ensures { result ≡ repeats_at names.now at name.now }
{
    if names[..at].contains(name) {
        Some(at)
    } else {
        None
    }
}

// Whether one of these entries names this layer, or all.
#[tactic(auto, using(crate::proofs::Clashing::layer_taken))]
fn has_clash(seen: &IndexSet<Spot>, name: Name, layer: u32) -> bool
    ensures { result ≡ list_any (clash (record { name = name; layer = Some layer })) seen.now.keys }
{
    let whole = Spot { name, layer: None };
    let spot = Spot {
        name,
        layer: Some(layer),
    };
    seen.contains(&whole) || seen.contains(&spot)
}

// Whether one of these entries clashes with this one, where it is known whether one has its name.
#[tactic(auto, using(crate::proofs::Clashing::none_named, crate::proofs::Clashing::all_taken))]
fn clashes(named: bool, seen: &IndexSet<Spot>, spot: Spot) -> bool
    requires { named ≡ list_any (λ s. bytes_eq spot.name s.name) seen.now.keys }
    ensures { result ≡ list_any (clash spot) seen.now.keys }
{
    if !named {
        return false;
    }
    match spot.layer {
        None => true,
        Some(layer) => has_clash(seen, spot.name, layer),
    }
}

// The first entry that names a unit of one before it, where some name a layer.
fn clash_of_layers(alloc: Global, spots: &[Spot]) -> Result<Option<usize>, NoMemory>
    ensures { IfOk result (λ location. location ≡ first_clash spots.now) }
{
    let mut names = IndexSet::new(alloc);
    let mut seen = IndexSet::new(alloc);
    for (i, spot) in spots.iter().enumerate() {
        let (_, fresh) = names.insert_full(spot.name)?;
        if clashes(!fresh, &seen, *spot) {
            return Ok(Some(i));
        }
        seen.insert_full(*spot)?;
    }
    Ok(None)
}

fn has_layers(spots: &[Spot]) -> bool
    ensures { result ≡ list_any (λ s. is_some s.layer) spots.now }
{
    spots.iter().any(|spot| spot.layer.is_some())
}

fn spot_names(alloc: Global, spots: &[Spot]) -> Result<List<Name>, NoMemory>
    ensures { IfOk result (λ names. names ≡ map (λ s. s.name) spots.now) }
{
    let mut names = List::new(alloc);
    for spot in spots {
        names.push(spot.name)?;
    }
    Ok(names)
}

// Whole resources clash where their names repeat, which takes one table in place of two.
#[tactic(auto, using(crate::proofs::Clashing::whole_clash))]
fn first_clash(alloc: Global, spots: &[Spot]) -> Result<Option<usize>, NoMemory>
    ensures { IfOk result (λ location. location ≡ first_clash spots.now) }
{
    if has_layers(spots) {
        return clash_of_layers(alloc, spots);
    }
    let names = spot_names(alloc, spots)?;
    first_repeat(alloc, &names)
}

fn written(alloc: Global, writes: &[Write<Spot>]) -> Result<List<Spot>, NoMemory>
    ensures { IfOk result (λ spots. spots ≡ map (λ w. w.what) writes.now) }
{
    let mut spots = List::new(alloc);
    for write in writes {
        spots.push(write.what)?;
    }
    Ok(spots)
}

fn queue_names(alloc: Global, frame: &Frame) -> Result<List<Name>, NoMemory>
    ensures { IfOk result (λ names. names ≡ map (λ q. q.name) frame.now.queues) }
{
    let mut names = List::new(alloc);
    for queue in frame.queues.iter() {
        names.push(queue.name)?;
    }
    Ok(names)
}

fn pass_names(alloc: Global, frame: &Frame) -> Result<List<Name>, NoMemory>
    ensures { IfOk result (λ names. names ≡ map (λ p. p.name) frame.now.passes) }
{
    let mut names = List::new(alloc);
    for pass in frame.passes.iter() {
        names.push(pass.name)?;
    }
    Ok(names)
}

fn repeats_in(
    alloc: Global,
    names: &[Name],
    p: usize,
    pass: &Pass,
) -> Result<Option<Location>, NoMemory>
    requires { p ≤ length names.now }
    ensures { IfOk result (λ location. location ≡ repeats_in names.now p pass.now) }
{
    if let Some(i) = repeats_at(names, p, &pass.name) {
        return Ok(Some(Location::Pass(i)));
    }
    if let Some(k) = first_clash(alloc, &pass.reads)? {
        return Ok(Some(Location::Read(p, k)));
    }
    let spots = written(alloc, &pass.writes)?;
    match first_clash(alloc, &spots)? {
        Some(k) => Ok(Some(Location::Write(p, k))),
        None => Ok(None),
    }
}

#[tactic(auto, using(base::proofs::Walks::first_on))]
fn repeats_in_passes(
    alloc: Global,
    names: &[Name],
    passes: &[Pass],
) -> Result<Option<Location>, NoMemory>
    requires { length names.now ≡ length passes.now }
    ensures { IfOk result (λ location. location ≡ first_in (repeats_in names.now) 0 passes.now) }
{
    for (p, pass) in passes.iter().enumerate() {
        if let Some(location) = repeats_in(alloc, names, p, pass)? {
            return Ok(Some(location));
        }
    }
    Ok(None)
}

fn repeated_queue(alloc: Global, frame: &Frame) -> Result<Option<usize>, NoMemory>
    ensures { IfOk result (λ location. location ≡ first_repeat (map (λ q. q.name) frame.now.queues)) }
{
    let names = queue_names(alloc, frame)?;
    first_repeat(alloc, &names)
}

fn repeated_in_passes(alloc: Global, frame: &Frame) -> Result<Option<Location>, NoMemory>
    ensures { IfOk result (λ location. location ≡ first_in (repeats_in (map (λ p. p.name) frame.now.passes)) 0 frame.now.passes) }
{
    let names = pass_names(alloc, frame)?;
    repeats_in_passes(alloc, &names, &frame.passes)
}

// An entry that repeats one, in the passes and then in the exports.
fn repeated_entry(alloc: Global, frame: &Frame) -> Result<Option<Location>, NoMemory>
    ensures { IfOk result (λ location. location ≡ option_or (first_in (repeats_in (map (λ p. p.name) frame.now.passes)) 0 frame.now.passes) (option_map (λ i. Export i) (first_clash frame.now.exports))) }
{
    if let Some(location) = repeated_in_passes(alloc, frame)? {
        return Ok(Some(location));
    }
    match first_clash(alloc, &frame.exports)? {
        Some(i) => Ok(Some(Location::Export(i))),
        None => Ok(None),
    }
}

/// The table of a frame's names, or the first name that stands twice, or entry that names a unit twice.
pub(crate) fn table_of(alloc: Global, frame: &Frame) -> Result<Result<Table, Location>, NoMemory>
    requires { layers_of frame.now.resources ≤ 256 }
    ensures none { IfOk result (λ found. IfOk found (λ table. repeated frame.now ≡ None)) }
    ensures table { IfOk result (λ found. IfOk found (λ table. table ≡ numbering frame.now)) }
    ensures repeat { IfOk result (λ found. IfErr found (λ location. repeated frame.now ≡ Some location)) }
{
    if let Some(i) = repeated_queue(alloc, frame)? {
        return Ok(Err(Location::Queue(i)));
    }
    let table = match Table::new(alloc, frame)? {
        Ok(table) => table,
        Err(i) => return Ok(Err(Location::Resource(i))),
    };
    match repeated_entry(alloc, frame)? {
        Some(location) => Ok(Err(location)),
        None => Ok(Ok(table)),
    }
}
