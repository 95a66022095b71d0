//! What the table of the order tells.

ghost use Rattle.std.specs.Prelude.{◌≡◌, ◌↔◌, ◌<◌, ◌+◌, ℕ, length, true, Some, None, IfSome, IfNone};
ghost use Rattle.base_first.specs.Asked.{LeadsTo, LeadsOut};
ghost use Rattle.base_first.specs.Points.{UpTo as PointUpTo};
ghost use Rattle.check_table.specs.Channels.{channel_at};
ghost use Rattle.check_table.specs.Joined.{Before, UpTo};
ghost use Rattle.check_table.specs.Laid.{seat_at};
ghost use Rattle.check_table.specs.Internal.Asked.{IsSpot, NoSpot, LeadsFrom, TellsEntry};
ghost use Rattle.check_table.specs.Tables.{IsFilled, Tells, TellsEntered, TellsOrder, bits, start_in};
ghost use Rattle.check_table.specs.declared.laying.Seat.TheVariants as sits;

use crate::laying::Seat;
use crate::table::OrderTable;
use vk::Stages;

/// Where the points of a command's run begin, and the column of a stage.
#[derive(Clone, Copy, Debug)]
pub(crate) struct Spot {
    pub run: usize,
    pub column: usize,
}

impl OrderTable {
    fn seat(&self, n: u32) -> Seat
        requires n { n < length self.now.seats.items }
        ensures { result ≡ seat_at self.now.seats.items n }
    {
        self.seats[n as usize]
    }

    // Where the dependency of the point at place `p` begins.
    fn start(&self, p: usize) -> usize
        requires filled { IsFilled self.now }
        requires p { p < length self.now.points.items }
        ensures { result ≡ start_in self.now.points.items self.now.seats.items p }
    {
        match self.seats[self.points[p].group as usize] {
            Seat::Node(start) => start as usize,
            _ => p,
        }
    }

    // The number of the channel by the stage.
    fn column(&self, stage: Stages) -> Option<usize>
        requires filled { IsFilled self.now }
        ensures some { IfSome result (λ t. (t < self.now.stages) × ((channel_at self.now.channels.items t).stage.0 ≡ stage.0)) }
        ensures none { IfNone result ((t : ℕ) → t < self.now.stages → (channel_at self.now.channels.items t).stage.0 ≡ stage.0 → ⊥) }
    {
        for t in 0..self.stages {
            if self.channels[t].stage.0 == stage.0 {
                return Some(t);
            }
        }
        None
    }

    // The place of a barrier, a wait or a signal.
    fn node(&self, n: u32) -> Option<usize>
        requires n { n < length self.now.seats.items }
        ensures some { IfSome result (λ p. seat_at self.now.seats.items n ≡ sits.Node p) }
        ensures none { IfNone result ((p : ℕ) → seat_at self.now.seats.items n ≡ sits.Node p → ⊥) }
    {
        match self.seat(n) {
            Seat::Node(p) => Some(p as usize),
            _ => None,
        }
    }

    // The first place of the run of a command.
    fn run(&self, n: u32) -> Option<usize>
        requires n { n < length self.now.seats.items }
        ensures some { IfSome result (λ p. seat_at self.now.seats.items n ≡ sits.Run p) }
        ensures none { IfNone result ((p : ℕ) → seat_at self.now.seats.items n ≡ sits.Run p → ⊥) }
    {
        match self.seat(n) {
            Seat::Run(p) => Some(p as usize),
            _ => None,
        }
    }

    // Whether the node's point at place `y` is reached from the point at place `p`.
    fn reaches(&self, p: usize, y: usize) -> bool
        requires filled { IsFilled self.now }
        requires p { p < length self.now.points.items }
        requires y { (n : ℕ) × (seat_at self.now.seats.items n ≡ sits.Node y) }
        ensures { (result ≡ true) ↔ PointUpTo self.now.points.items (length self.now.channels.items) p y }
    {
        let channels = self.channels.len();
        let start = self.start(y);
        self.firsts
            .is_up_to(&self.points, channels, self.stages, p, y, start)
    }

    // Whether a signal is reached from the point at place `p`.
    fn leads_out(&self, p: usize) -> bool
        requires filled { IsFilled self.now }
        requires p { p < length self.now.points.items }
        ensures { (result ≡ true) ↔ LeadsOut self.now.points.items self.now.queues (length self.now.channels.items) p self.now.stages }
    {
        self.firsts
            .leads_out(&self.points, self.queues, p, self.stages)
    }

    // Whether the command's point at place `q` comes, in column `t`, after what is reached from the point at place `p`.
    fn leads_to(&self, p: usize, t: usize, q: usize) -> bool
        requires filled { IsFilled self.now }
        requires p { p < length self.now.points.items }
        requires t { t < self.now.stages }
        requires q { (m : ℕ) × (seat_at self.now.seats.items m ≡ sits.Run q) }
        ensures { (result ≡ true) ↔ LeadsTo self.now.points.items (length self.now.channels.items) p t q }
    {
        self.firsts.leads_to(&self.points, p, t, q)
    }

    // The place where a run begins, and the column of a stage.
    fn spot_at(&self, run: usize, stage: Stages) -> Option<Spot>
        requires filled { IsFilled self.now }
        ensures some { (n : ℕ) → seat_at self.now.seats.items n ≡ sits.Run run → IfSome result (IsSpot self.now n stage.0) }
        ensures none { (n : ℕ) → IfNone result (NoSpot self.now n stage.0) }
    {
        match self.column(stage) {
            Some(column) => Some(Spot { run, column }),
            None => None,
        }
    }

    // The run of a command, and the column of a stage.
    fn spot(&self, n: u32, stage: Stages) -> Option<Spot>
        requires filled { IsFilled self.now }
        requires n { n < length self.now.seats.items }
        ensures some { IfSome result (IsSpot self.now n stage.0) }
        ensures none { IfNone result (NoSpot self.now n stage.0) }
    {
        match self.run(n) {
            Some(run) => self.spot_at(run, stage),
            None => None,
        }
    }

    fn place(&self, spot: Spot) -> usize
        requires filled { IsFilled self.now }
        requires spot { spot.run + spot.column < length self.now.points.items }
        ensures { result ≡ spot.run + spot.column }
    {
        spot.run + spot.column
    }

    // Whether node `y`, or what is before it if it is a host read, is reached from the point at place `k`.
    fn leads_from(&self, k: usize, y: u32) -> bool
        requires filled { IsFilled self.now }
        requires k { k < length self.now.points.items }
        requires y { y < length self.now.seats.items }
        ensures { Tells self.now result (λ W. LeadsFrom W self.now k y) }
    {
        match self.seat(y) {
            Seat::Node(q) => self.reaches(k, q as usize),
            Seat::Host => self.leads_out(k),
            Seat::Run(_) => false,
        }
    }

    // Whether command `m` is entered in the stage after the point at place `k`.
    fn enters_from(&self, k: usize, stage: Stages, m: u32) -> bool
        requires filled { IsFilled self.now }
        requires k { k < length self.now.points.items }
        requires m { m < length self.now.seats.items }
        ensures { TellsEntry self.now result k stage.0 m }
    {
        match self.spot(m, stage) {
            Some(spot) => self.leads_to(k, spot.column, spot.run),
            None => false,
        }
    }

    /// Whether node `x` happens before node `y`: barriers, waits and signals, and host reads as the second.
    pub fn happens_before(&self, x: u32, y: u32) -> bool
        requires filled { IsFilled self.now }
        requires x { x < length self.now.seats.items }
        requires y { y < length self.now.seats.items }
        ensures { Tells self.now result (λ W. Before W x y) }
    {
        if x == y {
            return false;
        }
        match self.node(x) {
            Some(p) => self.leads_from(p, y),
            None => false,
        }
    }

    /// Whether node `x` is node `y`, or happens before it.
    pub fn is_up_to(&self, x: u32, y: u32) -> bool
        requires filled { IsFilled self.now }
        requires x { x < length self.now.seats.items }
        requires y { y < length self.now.seats.items }
        ensures { Tells self.now result (λ W. UpTo W x y) }
    {
        if x == y {
            return true;
        }
        self.happens_before(x, y)
    }

    // Whether what command `m` does in the stage is entered by node `x` or one that comes after it.
    fn lets_in(&self, x: u32, stage: Stages, m: u32) -> bool
        requires filled { IsFilled self.now }
        requires x { x < length self.now.seats.items }
        requires m { m < length self.now.seats.items }
        ensures { TellsEntered self.now result x m (Some stage.0) }
    {
        match self.node(x) {
            Some(p) => self.enters_from(p, stage, m),
            None => false,
        }
    }

    /// Whether what node `m` does in the stage, or in none, is entered by node `x` or one that comes after it.
    pub fn is_entered_from(&self, x: u32, m: u32, stage: Option<Stages>) -> bool
        requires filled { IsFilled self.now }
        requires x { x < length self.now.seats.items }
        requires m { m < length self.now.seats.items }
        ensures { TellsEntered self.now result x m (bits stage) }
    {
        match stage {
            Some(stage) => self.lets_in(x, stage, m),
            None => self.is_up_to(x, m),
        }
    }

    /// Whether what command `n` does in the stage is before node `y`: a barrier, a wait, a signal or a host read.
    pub fn leads_into(&self, n: u32, stage: Stages, y: u32) -> bool
        requires filled { IsFilled self.now }
        requires n { n < length self.now.seats.items }
        requires y { y < length self.now.seats.items }
        ensures { TellsOrder self.now result n (Some stage.0) y None }
    {
        match self.spot(n, stage) {
            Some(spot) => self.leads_from(self.place(spot), y),
            None => false,
        }
    }

    /// Whether what command `n` does in a stage is before what command `m` does in the other.
    pub fn leaves_before(&self, n: u32, stage: Stages, m: u32, other: Stages) -> bool
        requires filled { IsFilled self.now }
        requires n { n < length self.now.seats.items }
        requires m { m < length self.now.seats.items }
        ensures { TellsOrder self.now result n (Some stage.0) m (Some other.0) }
    {
        match self.spot(n, stage) {
            Some(spot) => self.enters_from(self.place(spot), other, m),
            None => false,
        }
    }

    // Whether what command `n` does in the stage is before what node `m` does in its own.
    fn leaves_in_order(&self, n: u32, stage: Stages, m: u32, other: Option<Stages>) -> bool
        requires filled { IsFilled self.now }
        requires n { n < length self.now.seats.items }
        requires m { m < length self.now.seats.items }
        ensures { TellsOrder self.now result n (Some stage.0) m (bits other) }
    {
        match other {
            Some(other) => self.leaves_before(n, stage, m, other),
            None => self.leads_into(n, stage, m),
        }
    }

    /// Whether what node `n` does in its stage, or in none, is before what node `m` does in its own.
    pub fn is_in_order(&self, n: u32, stage: Option<Stages>, m: u32, other: Option<Stages>) -> bool
        requires filled { IsFilled self.now }
        requires n { n < length self.now.seats.items }
        requires m { m < length self.now.seats.items }
        ensures { TellsOrder self.now result n (bits stage) m (bits other) }
    {
        match stage {
            Some(stage) => self.leaves_in_order(n, stage, m, other),
            None => self.is_entered_from(n, m, other),
        }
    }
}
