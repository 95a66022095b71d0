//! Answers in either form: as lines, or as JSON.

ghost use Rattle.std.specs.Prelude.{◌≡◌, ◌<◌, ◌≤◌, IfOk, length};
ghost use Rattle.std.specs.List.{All};
ghost use Rattle.compile_groups.specs.Placed.{placed};
ghost use Rattle.frame.specs.Numbered.{numbered};
ghost use Rattle.report_json.specs.Told.{bound_told, check_told, cost_told, cull_told, frame_fault_told, hazard_told, place_told, program_fault_told};

use crate::bound::bound_json;
use crate::cost::cost_json;
use crate::cull::cull_json;
use crate::fault::{frame_fault_json, program_fault_json};
use crate::hazard::{check_json, hazard_json};
use crate::place::place_json;
use base::{NoMemory, Text};
use check_program::Hazard;
use cli::Form;
use compile_groups::Groups;
use compile_heap::Placement;
use frame::{FrameFault, ValidFrame};
use frame_cull::Kept;
use program::ProgramFault;
use report::{
    bound_text, check_text, cost_text, cull_text, frame_fault_text, hazard_text, place_text,
    program_fault_text,
};
use std::alloc::Global;

/// What `cull` prints, in this form.
pub fn cull_told(
    alloc: Global,
    form: Form,
    frame: &ValidFrame,
    kept: &Kept,
) -> Result<Text, NoMemory>
    requires { length kept.now ≡ length frame.now.passes }
    ensures { IfOk result (λ text. text ≡ cull_told form frame.now kept.now) }
{
    match form {
        Form::Line => cull_text(alloc, frame, kept),
        Form::Json => cull_json(alloc, frame, kept),
    }
}

/// What `place` prints, in this form.
pub fn place_told(
    alloc: Global,
    form: Form,
    frame: &ValidFrame,
    groups: &Groups,
    placement: &Placement,
) -> Result<Text, NoMemory>
    requires units { length groups.now.imports ≤ length (numbered frame.now).units }
    requires places { length placement.now.offsets ≡ length (placed groups.now) }
    ensures { IfOk result (λ text. text ≡ place_told form frame.now groups.now placement.now) }
{
    match form {
        Form::Line => place_text(alloc, frame, groups, placement),
        Form::Json => place_json(alloc, frame, groups, placement),
    }
}

/// What `bound` prints, in this form.
pub fn bound_told(
    alloc: Global,
    form: Form,
    frame: &ValidFrame,
    groups: &Groups,
    least: u64,
    heap: u32,
    chosen: &[u32],
) -> Result<Text, NoMemory>
    requires units { length groups.now.imports ≤ length (numbered frame.now).units }
    requires chosen { All (λ k. k < length (placed groups.now)) chosen.now }
    ensures { IfOk result (λ text. text ≡ bound_told form frame.now groups.now least heap chosen.now) }
{
    match form {
        Form::Line => bound_text(alloc, frame, groups, least, heap, chosen),
        Form::Json => bound_json(alloc, frame, groups, least, heap, chosen),
    }
}

/// What `auto --cost` prints, in this form.
pub fn cost_told(alloc: Global, form: Form, given: u64, found: u64) -> Result<Text, NoMemory>
    ensures { IfOk result (λ text. text ≡ cost_told form given found) }
{
    match form {
        Form::Line => cost_text(alloc, given, found),
        Form::Json => cost_json(alloc, given, found),
    }
}

/// What `check` prints of a program without a hazard, in this form.
pub fn check_told(alloc: Global, form: Form, nodes: u32) -> Result<Text, NoMemory>
    ensures { IfOk result (λ text. text ≡ check_told form nodes) }
{
    match form {
        Form::Line => check_text(alloc, nodes),
        Form::Json => check_json(alloc, nodes),
    }
}

/// What `check` prints of a program with a hazard, in this form.
pub fn hazard_told(alloc: Global, form: Form, hazard: &Hazard) -> Result<Text, NoMemory>
    ensures { IfOk result (λ text. text ≡ hazard_told form hazard.now) }
{
    match form {
        Form::Line => hazard_text(alloc, hazard),
        Form::Json => hazard_json(alloc, hazard),
    }
}

/// What is printed of a frame file with a fault, in this form.
pub fn frame_fault_told(alloc: Global, form: Form, fault: &FrameFault) -> Result<Text, NoMemory>
    ensures { IfOk result (λ text. text ≡ frame_fault_told form fault.now) }
{
    match form {
        Form::Line => frame_fault_text(alloc, fault),
        Form::Json => frame_fault_json(alloc, fault),
    }
}

/// What is printed of a submission file with a fault, in this form.
pub fn program_fault_told(alloc: Global, form: Form, fault: &ProgramFault) -> Result<Text, NoMemory>
    ensures { IfOk result (λ text. text ≡ program_fault_told form fault.now) }
{
    match form {
        Form::Line => program_fault_text(alloc, fault),
        Form::Json => program_fault_json(alloc, fault),
    }
}
