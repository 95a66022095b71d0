//! What the table of first points tells.

ghost use Rattle.std.specs.Prelude.{◌≡◌, ◌<◌, ◌≤◌, ◌↔◌, ℕ, length, true};
ghost use Rattle.base_first.specs.Asked.{HeldAt, HeldFrom, LeadsTo, LeadsOut, Shown, Begins, Chained};
ghost use Rattle.base_first.specs.Bits.{bit};
ghost use Rattle.base_first.specs.Firsts.{IsTable};
ghost use Rattle.base_first.specs.Points.{Lined, UpTo};

use crate::rows::has;
use crate::{Firsts, Point};

// Whether the two sets have one of the first numbers in common.
fn have_common(channels: usize, outs: u64, ins: u64) -> bool
    requires few { channels ≤ 64 }
    ensures { (result ≡ true) ↔ ((c : ℕ) × (c < channels) × (bit outs c ≡ true) × (bit ins c ≡ true)) }
{
    for c in 0..channels {
        if has(outs, c) && has(ins, c) {
            return true;
        }
    }
    false
}

// Whether point `y` waits in a channel for point `p` itself; its group begins at place `start`.
fn holds_at(points: &[Point], channels: usize, p: usize, y: usize, start: usize) -> bool
    requires few { channels ≤ 64 }
    requires p { p < length points.now }
    requires y { y < length points.now }
    ensures { (result ≡ true) ↔ HeldAt points.now channels p y start }
{
    let (from, to) = (points[p], points[y]);
    from.queue == to.queue && (p < start && have_common(channels, from.outs, to.ins))
}

impl Firsts {
    /// Whether a point that is reached from point `p` and looked for in column `c` stands before place `to` on its queue.
    pub fn leads_to(&self, points: &[Point], p: usize, c: usize, to: usize) -> bool
        requires table { IsTable points.now self.now.queues self.now.channels self.now }
        requires lined { Lined points.now self.now.queues }
        requires p { p < length points.now }
        requires to { to < length points.now }
        requires c { c < self.now.channels }
        ensures { (result ≡ true) ↔ LeadsTo points.now self.now.channels p c to }
    {
        (self.first(p, points[to].queue as usize, c) as usize) < to
    }

    /// Whether a point that is reached from point `p` and looked for in column `c` stands on any queue.
    pub fn leads_out(&self, points: &[Point], queues: usize, p: usize, c: usize) -> bool
        requires table { IsTable points.now self.now.queues self.now.channels self.now }
        requires queues { queues ≡ self.now.queues }
        requires p { p < length points.now }
        requires c { c < self.now.channels }
        ensures { (result ≡ true) ↔ LeadsOut points.now queues self.now.channels p c }
    {
        for q in 0..queues {
            if (self.first(p, q, c) as usize) < points.len() {
                return true;
            }
        }
        false
    }

    // Whether point `y` waits in a channel for a point that is reached from point `p`; its group begins at place `start`.
    fn holds(&self, points: &[Point], channels: usize, p: usize, y: usize, start: usize) -> bool
        requires table { IsTable points.now self.now.queues self.now.channels self.now }
        requires lined { Lined points.now self.now.queues }
        requires channels { channels ≡ self.now.channels }
        requires few { channels ≤ 64 }
        requires p { p < length points.now }
        requires y { y < length points.now }
        requires start { start ≤ length points.now }
        ensures { (result ≡ true) ↔ HeldFrom points.now channels p y start }
    {
        let point = points[y];
        for c in 0..channels {
            if has(point.ins, c) && (self.first(p, point.queue as usize, c) as usize) < start {
                return true;
            }
        }
        false
    }

    /// Whether point `y` is point `p` or edges lead there. Its group begins at place `start`, and signals are in the channel
    /// `signals`.
    pub fn is_up_to(
        &self,
        points: &[Point],
        channels: usize,
        signals: usize,
        p: usize,
        y: usize,
        start: usize,
    ) -> bool
        requires table { IsTable points.now self.now.queues self.now.channels self.now }
        requires lined { Lined points.now self.now.queues }
        requires channels { channels ≡ self.now.channels }
        requires few { channels ≤ 64 }
        requires shown { Shown points.now channels }
        requires chained { Chained points.now channels signals }
        requires p { p < length points.now }
        requires y { y < length points.now }
        requires start { Begins points.now y start }
        ensures { (result ≡ true) ↔ UpTo points.now channels p y }
    {
        if p == y
            || holds_at(points, channels, p, y, start)
            || self.holds(points, channels, p, y, start)
        {
            return true;
        }
        match points[y].met {
            Some(g) => self.first(p, points[g as usize].queue as usize, signals) <= g,
            None => false,
        }
    }
}
