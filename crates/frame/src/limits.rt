//! The limits of a frame.

ghost use Rattle.std.specs.Prelude.{◌≡◌, not, option_copied};
ghost use Rattle.std.specs.List.{position, find};
ghost use Rattle.std.specs.Str.{bytes_eq};
ghost use Rattle.base.specs.Bounds.{sides_allowed, size_allowed};
ghost use Rattle.frame.specs.Limits.{over, layers_allowed, all_bytes, op_count, spend_op, spend_pass, rects_over, exported, count_broken, size_broken, limit_broken};
ghost use Rattle.base.specs.Maxima.{max_units, max_ops, max_exports, max_resource_bytes};
ghost use Rattle.base.specs.Rooms.{first_over};

use crate::location::Location;
use crate::rule::Rule;
use crate::{Frame, Pass, Resource, Spot};
use base::{
    Broken, Limit, MAX_EXPORTS, MAX_LAYERS, MAX_OPS, MAX_PASSES, MAX_QUEUES, MAX_RECTS,
    MAX_RESOURCE_BYTES, MAX_UNITS, Op, first_over, spend_in,
};

fn over(limit: Limit, location: Location) -> Broken<Rule, Location>
    ensures { result ≡ over limit location }
{
    Broken::over_limit(Rule::Limits, limit, location)
}

fn layers_allowed(resource: &Resource) -> bool
    ensures { result ≡ layers_allowed resource.now }
{
    if resource.shape.is_buffer() {
        resource.layers == 1
    } else {
        1 <= resource.layers && resource.layers <= MAX_LAYERS
    }
}

fn wrong_layers(resources: &[Resource]) -> Option<usize>
    ensures { result ≡ position (λ r. not (layers_allowed r)) resources.now }
{
    resources
        .iter()
        .position(|resource| !layers_allowed(resource))
}

fn wrong_sides(resources: &[Resource]) -> Option<usize>
    ensures { result ≡ position (λ r. not (sides_allowed r.shape)) resources.now }
{
    resources
        .iter()
        .position(|resource| !resource.shape.sides_allowed())
}

fn wrong_size(resources: &[Resource]) -> Option<usize>
    ensures { result ≡ position (λ r. not (size_allowed r.shape)) resources.now }
{
    resources
        .iter()
        .position(|resource| !resource.shape.size_allowed())
}

fn units_over(resources: &[Resource]) -> Option<usize>
    ensures { result ≡ first_over (λ r. r.layers) max_units 0 resources.now }
{
    first_over(
        resources,
        MAX_UNITS as u128,
        |resource| resource.layers as u128,
    )
}

fn ops_over(passes: &[Pass]) -> Option<usize>
    ensures { result ≡ first_over op_count max_ops 0 passes.now }
{
    first_over(passes, MAX_OPS as u128, |pass| pass.ops.len() as u128)
}

fn spend_op(p: usize, room: usize, k: usize, op: &Op<Spot>) -> Result<usize, Location>
    ensures { result ≡ spend_op p room k op.now }
{
    let count = op.rect_count();
    if room < count {
        Err(Location::Rects(p, k))
    } else {
        Ok(room - count)
    }
}

fn spend_pass(room: usize, p: usize, pass: &Pass) -> Result<usize, Location>
    ensures { result ≡ spend_pass room p pass.now }
{
    spend_in(&pass.ops, room, |left, k, op| spend_op(p, left, k, op))
}

fn rects_over(passes: &[Pass]) -> Option<Location>
    ensures { result ≡ rects_over passes.now }
{
    match spend_in(passes, MAX_RECTS, |left, p, pass| spend_pass(left, p, pass)) {
        Ok(_) => None,
        Err(location) => Some(location),
    }
}

fn named<'a>(frame: &'a Frame, spot: &Spot) -> Option<&'a Resource>
    ensures { option_copied result ≡ find (λ r. bytes_eq r.name spot.now.name) frame.now.resources }
{
    frame
        .resources
        .iter()
        .find(|resource| resource.name == spot.name)
}

fn exported(frame: &Frame, spot: &Spot) -> u32
    ensures { result ≡ exported frame.now spot.now }
{
    if spot.layer.is_some() {
        return 1;
    }
    match named(frame, spot) {
        Some(resource) => resource.layers,
        None => 1,
    }
}

fn exports_over(frame: &Frame) -> Option<usize>
    ensures { result ≡ first_over (exported frame.now) max_exports 0 frame.now.exports }
{
    first_over(
        &frame.exports,
        MAX_EXPORTS as u128,
        |spot| exported(frame, spot) as u128,
    )
}

#[tactic(auto, using(crate::proofs::Sizes::product_fits))]
fn all_bytes(resource: &Resource) -> u128
    ensures { result ≡ all_bytes resource.now }
{
    resource.layers as u128 * resource.shape.bytes()
}

fn bytes_over(resources: &[Resource]) -> Option<usize>
    ensures { result ≡ first_over all_bytes max_resource_bytes 0 resources.now }
{
    first_over(
        resources,
        MAX_RESOURCE_BYTES,
        |resource| all_bytes(resource),
    )
}

// The limits on what stands in the lists.
fn count_broken(frame: &Frame) -> Option<Broken<Rule, Location>>
    ensures { result ≡ count_broken frame.now }
{
    if let Some(i) = wrong_layers(&frame.resources) {
        return Some(over(Limit::Layers, Location::Resource(i)));
    }
    if frame.queues.len() < 1 || frame.queues.len() > MAX_QUEUES {
        return Some(over(Limit::Queues, Location::Queues));
    }
    if units_over(&frame.resources).is_some() {
        return Some(over(Limit::Resources, Location::Resources));
    }
    if frame.passes.len() > MAX_PASSES {
        return Some(over(Limit::Passes, Location::Passes));
    }
    if let Some(p) = ops_over(&frame.passes) {
        return Some(over(Limit::Ops, Location::Ops(p)));
    }
    if let Some(location) = rects_over(&frame.passes) {
        return Some(over(Limit::Rects, location));
    }
    if exports_over(frame).is_some() {
        return Some(over(Limit::Exports, Location::Exports));
    }
    None
}

// The limits on each resource and on their bytes.
fn size_broken(resources: &[Resource]) -> Option<Broken<Rule, Location>>
    ensures { result ≡ size_broken resources.now }
{
    if let Some(i) = wrong_sides(resources) {
        return Some(over(Limit::Side, Location::Resource(i)));
    }
    if let Some(i) = wrong_size(resources) {
        return Some(over(Limit::Size, Location::Resource(i)));
    }
    if let Some(i) = bytes_over(resources) {
        return Some(over(Limit::Total, Location::Resource(i)));
    }
    None
}

/// The first limit that is broken.
pub(crate) fn limit_broken(frame: &Frame) -> Option<Broken<Rule, Location>>
    ensures { result ≡ limit_broken frame.now }
{
    if let Some(broken) = count_broken(frame) {
        return Some(broken);
    }
    size_broken(&frame.resources)
}
