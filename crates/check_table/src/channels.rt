//! The channels that are in use.

ghost use Rattle.std.specs.Prelude.{◌≡◌, ◌<◌, ◌≤◌, ◌+◌, ◌++◌, ◌∷◌, [], ℕ, List, false, length, IfOk};
ghost use Rattle.check_access_order.specs.Stages.{IsStage};
ghost use Rattle.check_table.specs.Channels.{MadeOf, Covers, stage_at, outs, ins};
ghost use Rattle.check_table.specs.Internal.Channels.{IsUnused, WithUsed};
ghost use Rattle.check_table.specs.Joined.{joined, Dependencies};
ghost use Rattle.check_table.specs.declared.channel.Channel.{Channel};
ghost use Rattle.check_table.specs.declared.channel.Way.TheVariants as kinds;

use crate::join::join_at;
use crate::{Channel, Join, Way};
use base::NoMemory;
use check_order::Edges;
use std::alloc::Global;
use vk::Stages;

/// Channels: by stages first, then that of signals, then those of releases and acquires.
#[derive(Debug, Drop)]
pub(crate) struct Channels {
    pub all: Vec<Channel>,
    // How many are by stages.
    pub stages: usize,
}

// Whether others wait for node `n` in the channel.
fn outs_at(edges: &Edges, joins: &[Join], channel: Channel, n: usize) -> bool
    requires n { n < length edges.now }
    ensures { result ≡ outs (joined edges.now joins.now) channel n }
{
    channel.outs(&edges.node(n), join_at(joins, n, edges.count()).role)
}

// Whether node `n` waits in the channel.
fn ins_at(edges: &Edges, joins: &[Join], channel: Channel, n: usize) -> bool
    requires n { n < length edges.now }
    ensures { result ≡ ins (joined edges.now joins.now) channel n }
{
    channel.ins(&edges.node(n), join_at(joins, n, edges.count()).role)
}

// Whether others wait for a node in the channel.
fn has_outs(edges: &Edges, joins: &[Join], channel: Channel) -> bool
    ensures { result ≡ false → (x : ℕ) → x < length edges.now → outs (joined edges.now joins.now) channel x ≡ false }
{
    for n in 0..edges.count() {
        if outs_at(edges, joins, channel, n) {
            return true;
        }
    }
    false
}

// Whether a node waits in the channel.
fn has_ins(edges: &Edges, joins: &[Join], channel: Channel) -> bool
    ensures { result ≡ false → (x : ℕ) → x < length edges.now → ins (joined edges.now joins.now) channel x ≡ false }
{
    for n in 0..edges.count() {
        if ins_at(edges, joins, channel, n) {
            return true;
        }
    }
    false
}

// Whether nodes, or nodes and commands, are joined by the channel.
fn is_used(edges: &Edges, joins: &[Join], channel: Channel) -> bool
    ensures { result ≡ false → IsUnused (joined edges.now joins.now) channel }
{
    let left = has_outs(edges, joins, channel);
    let entered = has_ins(edges, joins, channel);
    match channel.way {
        Way::Stage => left || entered,
        _ => left && entered,
    }
}

// Puts the channel of a way by stage `i` to the others, if it is in use.
fn push_one(
    channels: Vec<Channel>,
    edges: &Edges,
    joins: &[Join],
    stages: &[Stages],
    way: Way,
    i: usize,
) -> Result<Vec<Channel>, NoMemory>
    requires i { i < length stages.now }
    requires one { IsStage (stage_at stages.now i).0 }
    ensures { IfOk result (λ new. (old : List Channel) → WithUsed (joined edges.now joins.now) way stages.now i old channels.items → WithUsed (joined edges.now joins.now) way stages.now (i + 1) old new.items) }
{
    let channel = Channel {
        way,
        stage: stages[i],
    };
    if is_used(edges, joins, channel) {
        return with_channel(channels, channel);
    }
    Ok(channels)
}

fn with_channel(channels: Vec<Channel>, channel: Channel) -> Result<Vec<Channel>, NoMemory>
    ensures { IfOk result (λ new. new.items ≡ channels.items ++ channel ∷ []) }
{
    let mut channels = channels;
    channels.push(channel)?;
    Ok(channels)
}

// Puts the channels of a way that are in use to the others, one for each stage.
fn push_used(
    channels: Vec<Channel>,
    edges: &Edges,
    joins: &[Join],
    stages: &[Stages],
    way: Way,
) -> Result<Vec<Channel>, NoMemory>
    requires one { (i : ℕ) → i < length stages.now → IsStage (stage_at stages.now i).0 }
    ensures { IfOk result (λ new. WithUsed (joined edges.now joins.now) way stages.now (length stages.now) channels.items new.items) }
{
    let mut all = channels;
    for i in 0..stages.len() {
        all = push_one(all, edges, joins, stages, way, i)?;
    }
    Ok(all)
}

// The channels by stages alone.
fn by_stages(
    alloc: Global,
    edges: &Edges,
    joins: &[Join],
    stages: &[Stages],
) -> Result<Vec<Channel>, NoMemory>
    requires one { (i : ℕ) → i < length stages.now → IsStage (stage_at stages.now i).0 }
    ensures { IfOk result (λ new. WithUsed (joined edges.now joins.now) kinds.Stage stages.now (length stages.now) [] new.items) }
{
    push_used(Vec::new(alloc), edges, joins, stages, Way::Stage)
}

/// The channels by which nodes, and commands in these stages, hold each other back.
pub(crate) fn channels_of(
    alloc: Global,
    edges: &Edges,
    joins: &[Join],
    stages: &[Stages],
) -> Result<Channels, NoMemory>
    requires few { length stages.now ≤ 21 }
    requires stages { MadeOf (joined edges.now joins.now) stages.now }
    requires dependencies { Dependencies (joined edges.now joins.now) }
    ensures covers { IfOk result (λ channels. Covers (joined edges.now joins.now) channels.all.items channels.stages) }
    ensures few { IfOk result (λ channels. length channels.all.items ≤ 64) }
    ensures stages { IfOk result (λ channels. channels.stages ≤ 21) }
{
    let staged = by_stages(alloc, edges, joins, stages)?;
    let count = staged.len();
    let signal = Channel {
        way: Way::Signal,
        stage: Stages(0),
    };
    let signals = with_channel(staged, signal)?;
    let released = push_used(signals, edges, joins, stages, Way::Release)?;
    let all = push_used(released, edges, joins, stages, Way::Acquire)?;
    Ok(Channels { all, stages: count })
}
