//! The command `gen --summary`.

ghost use Rattle.std.specs.Prelude.{◌≡◌, ◌≤◌, IfOk, length, false};
ghost use Rattle.std.specs.List.{count_by, sum};
ghost use Rattle.frame.specs.Numbered.{numbered};
ghost use Rattle.frame_gen.specs.Generated.{generated};
ghost use Rattle.compile_groups.specs.Groups.{grouping};
ghost use Rattle.compile_groups.specs.Placed.{sizes};
ghost use Rattle.top.specs.Internal.Totals.{IsTotal};
ghost use Rattle.compile.specs.Submitted.{submitted};
ghost use Rattle.compile_file.specs.Compiles.{Compiles};
ghost use Rattle.top.specs.Headline.{SummarizesFrame};
ghost use Rattle.device_run.specs.Keepers.{Kept as KeptBy};
ghost use Rattle.device_run.specs.Runs.{HasRun, read_by};
ghost use Rattle.top.specs.Summaries.{summary_with};
ghost use Rattle.frame_cull.specs.Culled.{AreKept};

use crate::reply::{Reply, ran};
use crate::totals::{Total, total_of};
use base::{NoMemory, RunOptions, Text};
use base_io::Gate;
use check_program::Checked;
use compile_file::compiled;
use compile_groups::groups_of;
use compile_record::Compiled;
use device::Device;
use device_run::{Keep, run_program};
use frame::ValidFrame;
use frame_cull::{Kept, versions_of};
use frame_gen::generate;
use law_meaning::meaning_laws;
use report::{sum_of_sizes, summary_text};
use std::alloc::Global;
use std::sync::Wait;
use std::thread::Threads;

// How many bytes the placed units would take one by one.
fn separate(alloc: Global, good: &ValidFrame, kept: &Kept) -> Result<u32, NoMemory>
    requires { AreKept (numbered good.now) kept.now }
    ensures { IfOk result (λ bytes. bytes ≡ sum (sizes (grouping (numbered good.now) kept.now))) }
{
    let versions = versions_of(alloc, good)?;
    let groups = groups_of(alloc, good, &versions, kept)?;
    Ok(sum_of_sizes(groups.sizes()))
}

// How many passes are kept.
fn kept_count(good: &ValidFrame, kept: &Kept) -> u32
    requires { AreKept (numbered good.now) kept.now }
    ensures count { result ≡ count_by (λ k. k) kept.now }
    ensures few { result ≤ length (numbered good.now).passes }
{
    let _passes = good.pass_count();
    kept.count() as u32
}

// The bytes of all exports of a frame whose program a device has run.
fn exported(
    good: &ValidFrame,
    made: &Compiled<Checked>,
    device: &Device,
    options: RunOptions,
) -> Total
    requires compiles { Compiles false (numbered good.now) (submitted made.now) }
    requires has_run { HasRun made.now.program.program options.tend device.now }
    ensures { IsTotal (read_by device.now) (length (numbered good.now).exports) result }
{
    meaning_laws();
    let _good = good.pass_count();
    total_of(device, good.exports().len() as u32)
}

fn text_of(
    alloc: Global,
    good: &ValidFrame,
    made: &Compiled<Checked>,
    total: Total,
) -> Result<Text, NoMemory>
    requires kept { AreKept (numbered good.now) made.now.kept }
    ensures { IfOk result (λ text. text ≡ summary_with (numbered good.now) (submitted made.now) total.bytes total.sum) }
{
    let kept = kept_count(good, &made.kept);
    let separate = separate(alloc, good, &made.kept)?;
    summary_text(
        alloc,
        kept,
        good.pass_count() - kept,
        made.program.shaped().node_count(),
        made.placement.heap(),
        separate,
        good.exports().len() as u32,
        total.bytes,
        total.sum,
    )
}

fn summarize_compiled<R: Threads + Wait + Sync, G: Gate + Sync, K: Keep>(
    rt: &R,
    alloc: Global,
    options: RunOptions,
    good: &ValidFrame,
    made: &Compiled<Checked>,
    gate: &G,
    keeper: &mut K,
) -> Result<Reply, NoMemory>
    requires compiles { Compiles false (numbered good.now) (submitted made.now) }
    ensures frame { IfOk result (λ reply. KeptBy (K.kept keeper.old) (K.kept keeper.new) (λ devices. SummarizesFrame options good.now devices reply)) }
{
    let device = run_program(rt, alloc, &made.program, options, gate)?;
    let total = exported(good, made, device.device(), options);
    let text = text_of(alloc, good, made, total)?;
    ran(alloc, keeper, device, text)
}

fn summarize_frame<R: Threads + Wait + Sync, G: Gate + Sync, K: Keep>(
    rt: &R,
    alloc: Global,
    options: RunOptions,
    good: &ValidFrame,
    gate: &G,
    keeper: &mut K,
) -> Result<Reply, NoMemory>
    ensures frame { IfOk result (λ reply. KeptBy (K.kept keeper.old) (K.kept keeper.new) (λ devices. SummarizesFrame options good.now devices reply)) }
{
    let made = compiled(alloc, good, false)?;
    summarize_compiled(rt, alloc, options, good, &made, gate, keeper)
}

/// The answer to the command with this number and so many passes.
pub fn summarize<R: Threads + Wait + Sync, G: Gate + Sync, K: Keep>(
    rt: &R,
    alloc: Global,
    number: u32,
    passes: u32,
    options: RunOptions,
    gate: &G,
    keeper: &mut K,
) -> Result<Reply, NoMemory>
    requires some { 1 ≤ passes }
    requires few { passes ≤ 256 }
    ensures frame { IfOk result (λ reply. KeptBy (K.kept keeper.old) (K.kept keeper.new) (λ devices. SummarizesFrame options (generated number passes) devices reply)) }
{
    let good = generate(alloc, number, passes)?;
    summarize_frame(rt, alloc, options, &good, gate, keeper)
}
