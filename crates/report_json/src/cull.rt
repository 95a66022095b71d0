//! Which passes are kept and which are culled.

ghost use Rattle.std.specs.Prelude.{◌≡◌, ◌≤◌, ◌++◌, ◌-◌, OnOk, IfOk, codes, length};
ghost use Rattle.report_json.specs.Culls.{cull_json, kept_count, pass_object, pass_of};
ghost use Rattle.report_json.specs.Json.{array, entries, member, number};

use crate::object::{
    add_comma, end_object, first_number, first_string, next_member, next_number, next_truth,
};
use base::{List, NoMemory, Text};
use base_text::Lines;
use frame::{Pass, ValidFrame};
use frame_cull::Kept;
use std::alloc::Global;

fn add_counts(text: &mut Text, kept: &Kept, passes: usize) -> Result<(), NoMemory>
    requires { passes ≡ length kept.now }
    ensures { OnOk result (text.new ≡ text.old ++ codes "{" ++ member (codes "kept") (number (kept_count kept.now)) ++ codes "," ++ member (codes "culled") (number (length kept.now - kept_count kept.now))) }
{
    let count = kept.count();
    first_number(text, b"kept", count as u64)?;
    next_number(text, b"culled", (passes - count) as u64)
}

fn add_pass(text: &mut Text, pass: &Pass, kept: bool) -> Result<(), NoMemory>
    ensures { OnOk result (text.new ≡ text.old ++ pass_object pass.now kept) }
{
    first_string(text, b"name", pass.name.as_bytes())?;
    next_truth(text, b"kept", kept)?;
    text.word(b"}")
}

#[tactic(auto, using(crate::proofs::Entries::one_more))]
fn add_passes(text: &mut Text, passes: &[Pass], kept: &Kept) -> Result<(), NoMemory>
    requires few { length passes.now ≤ 256 }
    requires all { length kept.now ≡ length passes.now }
    ensures { OnOk result (text.new ≡ text.old ++ entries (pass_of kept.now) 0 passes.now) }
{
    for (p, pass) in passes.iter().enumerate() {
        add_comma(text, p)?;
        add_pass(text, pass, kept.contains(p as u32))?;
    }
    Ok(())
}

// The member that has them all.
#[tactic(auto, unfolding(crate::specs::Json::member))]
fn next_passes(text: &mut Text, passes: &[Pass], kept: &Kept) -> Result<(), NoMemory>
    requires few { length passes.now ≤ 256 }
    requires all { length kept.now ≡ length passes.now }
    ensures { OnOk result (text.new ≡ text.old ++ codes "," ++ member (codes "passes") (array (pass_of kept.now) passes.now)) }
{
    next_member(text, b"passes")?;
    text.word(b"[")?;
    add_passes(text, passes, kept)?;
    text.word(b"]")
}

/// The object that `cull --json` prints: how many passes are kept and culled, and what becomes of each.
#[tactic(auto, using(report::proofs::Passes::few))]
pub(crate) fn cull_json(alloc: Global, frame: &ValidFrame, kept: &Kept) -> Result<Text, NoMemory>
    requires { length kept.now ≡ length frame.now.passes }
    ensures { IfOk result (λ text. text ≡ cull_json frame.now kept.now) }
{
    let passes = &frame.frame().passes;
    let mut text = List::new(alloc);
    add_counts(&mut text, kept, passes.len())?;
    next_passes(&mut text, passes, kept)?;
    end_object(&mut text)?;
    Ok(text)
}
