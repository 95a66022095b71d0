//! Frames that break no rule.

ghost use Rattle.std.specs.Prelude.{◌≡◌, ◌≤◌, ◌<◌, IfOk, IfErr, IfSome, length, None, Some, slice_get, map, is_some, option_copied};
ghost use Rattle.std.specs.List.{All};
ghost use Rattle.frame.specs.FirstFault.{shapes_of, name_broken, rule_broken, misfit_broken, use_broken, first_broken, first_fault, Ends, AllWithin};
ghost use Rattle.base.specs.Operands.{operands_of};
ghost use Rattle.frame.specs.Valid.{IsValid};
ghost use Rattle.frame.specs.Numbered.{numbered, all_uses, export_units};
ghost use Rattle.frame.specs.Resolved.{resolved_of};
ghost use Rattle.frame.specs.Units.{numbering, owners, unit_spots};

use crate::limits::limit_broken;
use crate::location::Location;
use crate::numbered::{NumberedPass, Span, Uses};
use crate::numbers::{all_units, all_uses, spans};
use crate::path::fault_of;
use crate::repeats::table_of;
use crate::rule::Rule;
use crate::table::Table;
use crate::units::{imports, owners, shapes, sharings, spots};
use crate::unknowns::unknown;
use crate::uses::{first_use, misfit_import};
use crate::written::unwritten;
use crate::{Frame, FrameFault, Sharing, Spot, Write};
use base::{Broken, Family, List, NoMemory, Op, Shape};
use std::alloc::Global;
use std::marker::Model;
use thiserror::Error;

/// What is computed once for a frame.
#[derive(Debug, Drop)]
pub struct Resolved {
    pub shapes: List<Shape>,
    pub sharings: List<Sharing>,
    pub owners: List<u32>,
    pub spots: List<Spot>,
    pub passes: List<NumberedPass>,
    pub exports: List<u32>,
}

/// A frame that breaks no rule, with its names as numbers. Each number of a buffer or image is that of a *unit*: a
/// buffer, or one layer of an image, in the order of declaration.
#[derive(Debug, Drop)]
pub struct ValidFrame {
    frame: Frame,
    resolved: Resolved,
}

impl Model for ValidFrame {
    ghost use Rattle.std.specs.Prelude.{◌≡◌, None};
    ghost use Rattle.frame.specs.FirstFault.{first_broken};
    ghost use Rattle.frame.specs.Valid.{IsValid};
    ghost use Rattle.frame.specs.Numbered.{numbered};
    ghost use Rattle.frame.specs.Resolved.{resolved_of};
    ghost use Rattle.frame.specs.declared.frame.Frame.{Frame};

    ghost Value = { Frame };

    ghost view = { λ g. g.frame };

    ghost invariant = { λ g. (first_broken g.frame ≡ None) × (g.resolved ≡ resolved_of g.frame) × IsValid (numbered g.frame) };
}

/// Why a frame was not taken, and the frame itself.
#[derive(Debug, Drop, Error)]
pub enum FrameError {
    #[error("the frame breaks a rule")]
    Refused(FrameFault, Frame),
    #[error("memory ran out")]
    NoMemory(Frame),
}

// The rules on limits and names, and then the table of names.
#[tactic(auto, using(crate::proofs::Small::few_units))]
fn named(alloc: Global, frame: &Frame) -> Result<Result<Table, Broken<Rule, Location>>, NoMemory>
    ensures broken { IfOk result (λ found. IfErr found (λ b. name_broken frame.now ≡ Some b)) }
    ensures none { IfOk result (λ found. IfOk found (λ table. name_broken frame.now ≡ None)) }
    ensures table { IfOk result (λ found. IfOk found (λ table. table ≡ numbering frame.now)) }
{
    if let Some(broken) = limit_broken(frame) {
        return Ok(Err(broken));
    }
    let table = match table_of(alloc, frame)? {
        Ok(table) => table,
        Err(location) => return Ok(Err(Broken::of_rule(Rule::Repeated, location))),
    };
    if let Some(location) = unknown(frame, &table) {
        return Ok(Err(Broken::of_rule(Rule::Unknown, location)));
    }
    Ok(Ok(table))
}

// A rule on what one pass does.
fn rule_broken(
    rule: Rule,
    frame: &Frame,
    shapes: &[Shape],
    passes: &[Uses],
) -> Option<Broken<Rule, Location>>
    requires { AllWithin (length frame.now.queues) (length shapes.now) passes.now }
    ensures { result ≡ rule_broken rule frame.now shapes.now passes.now }
{
    Broken::at(rule, first_use(rule, frame, shapes, passes))
}

// Imports come before operations.
fn misfit_broken(frame: &Frame, shapes: &[Shape], passes: &[Uses]) -> Option<Broken<Rule, Location>>
    requires { AllWithin (length frame.now.queues) (length shapes.now) passes.now }
    ensures { result ≡ misfit_broken frame.now shapes.now passes.now }
{
    if let Some(location) = misfit_import(&frame.resources) {
        return Some(Broken::of_rule(Rule::Fits, location));
    }
    rule_broken(Rule::Fits, frame, shapes, passes)
}

fn use_broken(
    frame: &Frame,
    shapes: &[Shape],
    imported: List<bool>,
    passes: &[Uses],
    exports: &[Span],
) -> Option<Broken<Rule, Location>>
    requires imported { length imported ≡ length shapes.now }
    requires within { AllWithin (length frame.now.queues) (length shapes.now) passes.now }
    ensures { result ≡ use_broken frame.now shapes.now imported passes.now exports.now }
{
    if let Some(broken) = rule_broken(Rule::Runs, frame, shapes, passes) {
        return Some(broken);
    }
    if let Some(broken) = rule_broken(Rule::Declared, frame, shapes, passes) {
        return Some(broken);
    }
    if let Some(broken) = rule_broken(Rule::Whole, frame, shapes, passes) {
        return Some(broken);
    }
    if let Some(location) = unwritten(imported, frame.queues.len(), passes, exports) {
        return Some(Broken::of_rule(Rule::Unwritten, location));
    }
    if let Some(broken) = misfit_broken(frame, shapes, passes) {
        return Some(broken);
    }
    if let Some(broken) = rule_broken(Rule::InPlace, frame, shapes, passes) {
        return Some(broken);
    }
    rule_broken(Rule::ReadNew, frame, shapes, passes)
}

fn passes_of(alloc: Global, uses: List<Uses>) -> Result<List<NumberedPass>, NoMemory>
    ensures { IfOk result (λ passes. passes ≡ map (λ u. u.pass) uses) }
{
    let mut passes = List::new(alloc);
    for one in uses.into_vec() {
        let Uses { pass, .. } = one;
        passes.push(pass)?;
    }
    Ok(passes)
}

// The first rule that a frame with known names breaks.
#[tactic(auto, using(crate::proofs::Small::as_many_as))]
fn judged(
    alloc: Global,
    frame: &Frame,
    shapes: &[Shape],
    uses: &[Uses],
    exports: &[Span],
) -> Result<Option<Broken<Rule, Location>>, NoMemory>
    requires named { name_broken frame.now ≡ None }
    requires shapes { shapes.now ≡ shapes_of frame.now }
    requires uses { uses.now ≡ all_uses frame.now }
    requires exports { exports.now ≡ export_units frame.now }
    ensures { IfOk result (λ found. found ≡ first_broken frame.now) }
{
    let imported = imports(alloc, frame)?;
    Ok(use_broken(frame, shapes, imported, uses, exports))
}

#[tactic(auto, using(crate::proofs::Small::few_resources))]
fn collected(
    alloc: Global,
    frame: &Frame,
    shapes: List<Shape>,
    uses: List<Uses>,
    exports: &[Span],
) -> Result<Resolved, NoMemory>
    requires named { name_broken frame.now ≡ None }
    requires shapes { shapes ≡ shapes_of frame.now }
    requires uses { uses ≡ all_uses frame.now }
    requires exports { exports.now ≡ export_units frame.now }
    ensures { IfOk result (λ resolved. resolved ≡ resolved_of frame.now) }
{
    Ok(Resolved {
        shapes,
        sharings: sharings(alloc, frame)?,
        owners: owners(alloc, &frame.resources)?,
        spots: spots(alloc, &frame.resources)?,
        passes: passes_of(alloc, uses)?,
        exports: all_units(alloc, exports)?,
    })
}

// What is resolved of a frame, or the first rule that it breaks.
#[tactic(auto, using(crate::proofs::Small::few_queues, crate::proofs::Small::uses_by, crate::proofs::Small::spans_by))]
fn resolved_of(
    alloc: Global,
    frame: &Frame,
    table: &Table,
) -> Result<Result<Resolved, Broken<Rule, Location>>, NoMemory>
    requires named { name_broken frame.now ≡ None }
    requires table { table.now ≡ numbering frame.now }
    ensures broken { IfOk result (λ found. IfErr found (λ b. first_broken frame.now ≡ Some b)) }
    ensures none { IfOk result (λ found. IfOk found (λ resolved. first_broken frame.now ≡ None)) }
    ensures resolved { IfOk result (λ found. IfOk found (λ resolved. resolved ≡ resolved_of frame.now)) }
{
    let shapes = shapes(alloc, frame)?;
    let uses = all_uses(alloc, frame, table)?;
    let exports = spans(alloc, table, &frame.exports)?;
    match judged(alloc, frame, &shapes, &uses, &exports)? {
        Some(broken) => Ok(Err(broken)),
        None => Ok(Ok(collected(alloc, frame, shapes, uses, &exports)?)),
    }
}

#[tactic(auto, using(crate::proofs::Small::names_first))]
fn first_broken(
    alloc: Global,
    frame: &Frame,
) -> Result<Result<Resolved, Broken<Rule, Location>>, NoMemory>
    ensures broken { IfOk result (λ found. IfErr found (λ b. first_broken frame.now ≡ Some b)) }
    ensures none { IfOk result (λ found. IfOk found (λ resolved. first_broken frame.now ≡ None)) }
    ensures resolved { IfOk result (λ found. IfOk found (λ resolved. resolved ≡ resolved_of frame.now)) }
{
    match named(alloc, frame)? {
        Ok(table) => resolved_of(alloc, frame, &table),
        Err(broken) => Ok(Err(broken)),
    }
}

/// The frame with its names as numbers, or the first rule that it breaks.
pub fn validate_frame(alloc: Global, frame: Frame) -> Result<ValidFrame, FrameError>
    ensures good { IfOk result (λ good. (good ≡ frame) × (first_fault frame ≡ None)) }
    ensures refused { IfErr result (λ end. Ends frame end) }
{
    match first_broken(alloc, &frame) {
        Ok(Ok(resolved)) => Ok(ValidFrame { frame, resolved }),
        Ok(Err(broken)) => match fault_of(alloc, broken) {
            Ok(fault) => Err(FrameError::Refused(fault, frame)),
            Err(NoMemory) => Err(FrameError::NoMemory(frame)),
        },
        Err(NoMemory) => Err(FrameError::NoMemory(frame)),
    }
}

// The table of names where no limit and no rule on names is broken.
#[tactic(auto, using(crate::proofs::Small::few_layers, crate::proofs::Small::never_repeated))]
fn known_names(alloc: Global, frame: &Frame) -> Result<Table, NoMemory>
    requires { name_broken frame.now ≡ None }
    ensures { IfOk result (λ table. table ≡ numbering frame.now) }
{
    match table_of(alloc, frame)? {
        Ok(table) => Ok(table),
        Err(_) => unreachable!(),
    }
}

// What is resolved of a frame, and no rule judged.
#[tactic(auto, using(crate::proofs::Small::few_queues, crate::proofs::Small::uses_by, crate::proofs::Small::spans_by))]
fn unjudged_resolved(alloc: Global, frame: &Frame, table: &Table) -> Result<Resolved, NoMemory>
    requires named { name_broken frame.now ≡ None }
    requires table { table.now ≡ numbering frame.now }
    ensures { IfOk result (λ resolved. resolved ≡ resolved_of frame.now) }
{
    let shapes = shapes(alloc, frame)?;
    let uses = all_uses(alloc, frame, table)?;
    let exports = spans(alloc, table, &frame.exports)?;
    collected(alloc, frame, shapes, uses, &exports)
}

fn numbered_resolved(alloc: Global, frame: &Frame) -> Result<Resolved, NoMemory>
    requires { name_broken frame.now ≡ None }
    ensures { IfOk result (λ resolved. resolved ≡ resolved_of frame.now) }
{
    let table = known_names(alloc, frame)?;
    unjudged_resolved(alloc, frame, &table)
}

/// The frame with its names as numbers, for one who knows already that it breaks no rule: none is judged a second time.
#[tactic(auto, using(crate::proofs::Small::names_known))]
pub fn faultless(alloc: Global, frame: Frame) -> Result<ValidFrame, NoMemory>
    requires { first_fault frame ≡ None }
    ensures { IfOk result (λ good. good ≡ frame) }
{
    let resolved = numbered_resolved(alloc, &frame)?;
    Ok(ValidFrame { frame, resolved })
}

impl ValidFrame {
    pub fn frame(&self) -> &Frame
        ensures frame { result.now ≡ self.now }
        ensures good { first_fault self.now ≡ None }
        ensures numbers { IsValid (numbered self.now) }
    {
        &self.frame
    }

    #[tactic(auto, using(crate::proofs::Small::families_are))]
    pub fn queue_count(&self) -> u32
        ensures { result ≡ length (numbered self.now).queues }
    {
        self.frame.queues.len() as u32
    }

    pub fn pass_count(&self) -> u32
        ensures count { result ≡ length (numbered self.now).passes }
        ensures good { IsValid (numbered self.now) }
    {
        self.resolved.passes.len() as u32
    }

    #[tactic(auto, using(crate::proofs::Small::families_are, crate::proofs::Small::family_got))]
    pub fn family(&self, queue: u32) -> Family
        requires { queue < length (numbered self.now).queues }
        ensures { slice_get (numbered self.now).queues queue ≡ Some result }
    {
        self.frame.queues[queue as usize].family
    }

    /// The queue of a pass.
    pub fn queue_of(&self, pass: u32) -> u32
        requires { pass < length (numbered self.now).passes }
        ensures queue { IfSome (slice_get (numbered self.now).passes pass) (λ p. result ≡ p.queue) }
        ensures within { result < length (numbered self.now).queues }
    {
        self.resolved.passes[pass as usize].queue
    }

    /// The units that a pass reads, in the order of its entries.
    pub fn reads(&self, pass: u32) -> &[u32]
        requires { pass < length (numbered self.now).passes }
        ensures reads { IfSome (slice_get (numbered self.now).passes pass) (λ p. result.now ≡ p.reads) }
        ensures within { All (λ unit. unit < length (numbered self.now).units) result.now }
    {
        &self.resolved.passes[pass as usize].reads
    }

    /// The units that a pass writes, in the order of its entries.
    pub fn writes(&self, pass: u32) -> &[Write<u32>]
        requires { pass < length (numbered self.now).passes }
        ensures writes { IfSome (slice_get (numbered self.now).passes pass) (λ p. result.now ≡ p.writes) }
        ensures within { All (λ w. w.what < length (numbered self.now).units) result.now }
    {
        &self.resolved.passes[pass as usize].writes
    }

    /// The operations of a pass, over units.
    pub fn ops(&self, pass: u32) -> &[Op<u32>]
        requires { pass < length (numbered self.now).passes }
        ensures ops { IfSome (slice_get (numbered self.now).passes pass) (λ p. result.now ≡ p.ops) }
        ensures good { IsValid (numbered self.now) }
        ensures within { All (λ op. All (λ unit. unit < length (numbered self.now).units) (operands_of op)) result.now }
    {
        &self.resolved.passes[pass as usize].ops
    }

    /// Whether a pass stays though nothing that it writes is wanted.
    pub fn has_side_effect(&self, pass: u32) -> bool
        requires { pass < length (numbered self.now).passes }
        ensures { IfSome (slice_get (numbered self.now).passes pass) (λ p. result ≡ p.side_effect) }
    {
        self.resolved.passes[pass as usize].side_effect
    }

    /// The units that are read back after the frame, in the order of the exports.
    pub fn exports(&self) -> &[u32]
        ensures exports { result.now ≡ (numbered self.now).exports }
        ensures good { IsValid (numbered self.now) }
        ensures few { length result.now ≤ 32 }
        ensures within { All (λ unit. unit < length (numbered self.now).units) result.now }
    {
        &self.resolved.exports
    }

    /// The shape of each unit.
    pub fn shapes(&self) -> &[Shape]
        ensures { result.now ≡ map (λ unit. unit.shape) (numbered self.now).units }
    {
        &self.resolved.shapes
    }

    /// The bytes that a unit holds before the frame, if it is an import.
    #[tactic(auto, using(crate::proofs::Owned::owner_within, crate::proofs::Owned::unit_owned))]
    pub fn import(&self, unit: u32) -> Option<&[u8]>
        requires { unit < length (numbered self.now).units }
        ensures { IfSome (slice_get (numbered self.now).units unit) (λ u. option_copied result ≡ u.imported) }
    {
        let owner = self.resolved.owners[unit as usize];
        match &self.frame.resources[owner as usize].import {
            Some(bytes) => Some(bytes.as_slice()),
            None => None,
        }
    }

    /// Whether a unit is an import.
    pub fn is_import(&self, unit: u32) -> bool
        requires { unit < length (numbered self.now).units }
        ensures { IfSome (slice_get (numbered self.now).units unit) (λ u. result ≡ is_some u.imported) }
    {
        match self.import(unit) {
            Some(_) => true,
            None => false,
        }
    }

    /// The number of units.
    #[tactic(auto, using(crate::proofs::Small::count_fits, crate::proofs::Small::shapes_are))]
    pub fn unit_count(&self) -> u32
        ensures count { result ≡ length (numbered self.now).units }
        ensures few { result ≤ 256 }
        ensures good { IsValid (numbered self.now) }
    {
        self.resolved.shapes.len() as u32
    }

    /// How a unit is named: without a layer exactly where its resource has one.
    #[tactic(auto, using(crate::proofs::Small::spots_are))]
    pub fn unit_name(&self, unit: u32) -> Spot
        requires { unit < length (numbered self.now).units }
        ensures { slice_get (unit_spots self.now) unit ≡ Some result }
    {
        self.resolved.spots[unit as usize]
    }

    /// The number of a unit's resource, in the order of declaration.
    #[tactic(auto, using(crate::proofs::Small::owners_are))]
    pub fn unit_resource(&self, unit: u32) -> u32
        requires { unit < length (numbered self.now).units }
        ensures { slice_get (owners 0 self.now.resources) unit ≡ Some result }
    {
        self.resolved.owners[unit as usize]
    }

    #[tactic(auto, using(crate::proofs::Small::sharings_are))]
    pub fn sharing(&self, unit: u32) -> Sharing
        requires { unit < length (numbered self.now).units }
        ensures { slice_get (map (λ u. u.sharing) (numbered self.now).units) unit ≡ Some result }
    {
        self.resolved.sharings[unit as usize]
    }
}
