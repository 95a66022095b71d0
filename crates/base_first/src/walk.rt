//! The walk over the points, from the last one back.

ghost use Rattle.std.specs.Prelude.{◌≡◌, ◌≢◌, ◌<◌, ◌≤◌, ◌+◌, ◌*◌, ℕ, length, get_or};
ghost use Rattle.base_first.specs.Internal.Walk.{Walked, IsNewest};
ghost use Rattle.base_first.specs.Points.{point_at, Lined};

use crate::Point;
use crate::rows::{copy_rows, give_row, put, take_row, take_rows};

/// The numbers of queues and of channels, and of the entries of a row: one for each queue and channel.
#[derive(Clone, Copy, Debug)]
pub(crate) struct Size {
    pub queues: usize,
    pub channels: usize,
    pub width: usize,
}

// Begins a group of queue `q`, if it is another one than the queue's newest: its points are held back by nothing of their own.
fn open_group(numbers: &mut [u32], groups: &mut [u32], points: &[Point], size: Size, p: usize)
    requires few { length points.now ≤ 2097152 }
    requires width { size.width ≡ size.queues * size.channels }
    requires narrow { size.width ≤ 4096 }
    requires channels { size.channels ≤ 64 }
    requires p { p < length points.now }
    requires lined { Lined points.now size.queues }
    requires walked { Walked points.now size.queues size.channels numbers.old groups.old (p + 1) }
    requires newest { IsNewest points.now size.queues groups.old (p + 1) }
    ensures walked { Walked points.now size.queues size.channels numbers.new groups.new (p + 1) }
    ensures others { (q : ℕ) → q ≢ (point_at points.now p).queue → get_or groups.new q 0 ≡ get_or groups.old q 0 }
    ensures group { get_or groups.new (point_at points.now p).queue 0 ≡ (point_at points.now p).group }
{
    let point = points[p];
    let q = point.queue as usize;
    if groups[q] == point.group {
        return;
    }
    groups[q] = point.group;
    let nexts = points.len() + q * size.channels;
    copy_rows(
        numbers,
        size.width,
        nexts + size.width,
        nexts,
        size.channels,
    );
}

// Deals with point `p`, all later ones being dealt with.
fn step(numbers: &mut [u32], groups: &mut [u32], points: &[Point], size: Size, p: usize)
    requires few { length points.now ≤ 2097152 }
    requires width { size.width ≡ size.queues * size.channels }
    requires narrow { size.width ≤ 4096 }
    requires channels { size.channels ≤ 64 }
    requires p { p < length points.now }
    requires lined { Lined points.now size.queues }
    requires walked { Walked points.now size.queues size.channels numbers.old groups.old (p + 1) }
    requires newest { IsNewest points.now size.queues groups.old (p + 1) }
    ensures walked { Walked points.now size.queues size.channels numbers.new groups.new p }
    ensures newest { IsNewest points.now size.queues groups.new p }
{
    open_group(numbers, groups, points, size, p);
    let point = points[p];
    let first = point.queue as usize * size.channels;
    let nexts = points.len() + first;
    take_rows(
        numbers,
        size.width,
        p,
        nexts + size.width,
        size.channels,
        point.outs,
    );
    put(
        numbers,
        size.width,
        p,
        first,
        size.channels,
        point.shows,
        p as u32,
    );
    give_row(numbers, size.width, p, nexts, size.channels, point.ins);
    if let Some(signal) = point.met {
        take_row(numbers, size.width, signal as usize, p);
    }
}

fn walk(numbers: &mut [u32], groups: &mut [u32], points: &[Point], size: Size)
    requires few { length points.now ≤ 2097152 }
    requires width { size.width ≡ size.queues * size.channels }
    requires narrow { size.width ≤ 4096 }
    requires channels { size.channels ≤ 64 }
    requires lined { Lined points.now size.queues }
    requires walked { Walked points.now size.queues size.channels numbers.old groups.old (length points.now) }
    requires newest { IsNewest points.now size.queues groups.old (length points.now) }
    ensures walked { Walked points.now size.queues size.channels numbers.new groups.new 0 }
{
    let count = points.len();
    for i in 0..count {
        step(numbers, groups, points, size, count - 1 - i);
    }
}

/// Deals with all points.
pub(crate) fn walk_all(numbers: &mut Vec<u32>, groups: &mut Vec<u32>, points: &[Point], size: Size)
    requires few { length points.now ≤ 2097152 }
    requires width { size.width ≡ size.queues * size.channels }
    requires narrow { size.width ≤ 4096 }
    requires channels { size.channels ≤ 64 }
    requires lined { Lined points.now size.queues }
    requires walked { Walked points.now size.queues size.channels numbers.old.items groups.old.items (length points.now) }
    requires newest { IsNewest points.now size.queues groups.old.items (length points.now) }
    ensures walked { Walked points.now size.queues size.channels numbers.new.items groups.new.items 0 }
{
    walk(numbers, groups, points, size);
}
