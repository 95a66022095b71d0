//! Steps looked up by marks.

ghost use Rattle.std.specs.Prelude.{◌≡◌, ℕ, ◌==◌, ◌<◌, length, OnOk, if◌then◌else◌};
ghost use Rattle.compile_record.specs.Internal.Tables.{step_at, step_for};
ghost use Rattle.compile_record.specs.Marks.{same};
ghost use Rattle.compile_record.specs.declared.mark.Mark.{Mark};

use crate::Mark;
use base::{List, NoMemory};
use std::alloc::Global;

/// For each number a step. Numbers that were never told have the step `none`.
#[derive(Debug, Drop)]
pub(crate) struct Table {
    pub(crate) steps: List<u32>,
    pub(crate) none: u32,
}

impl Table {
    fn new(alloc: Global, none: u32) -> Table
        ensures { (n : ℕ) → step_at result n ≡ none }
    {
        Table {
            steps: List::new(alloc),
            none,
        }
    }

    fn step_at(&self, number: u32) -> u32
        ensures { result ≡ step_at self.now number }
    {
        match self.steps.get(number as usize) {
            Some(step) => *step,
            None => self.none,
        }
    }

    // So that the number has a place.
    fn grow(&mut self, number: u32) -> Result<(), NoMemory>
        ensures size { OnOk result (number < length self.new.steps) }
        ensures same { OnOk result ((n : ℕ) → step_at self.new n ≡ step_at self.old n) }
    {
        for _place in self.steps.len()..number as usize + 1 {
            self.steps.push(self.none)?;
        }
        Ok(())
    }

    fn set(&mut self, number: u32, step: u32) -> Result<(), NoMemory>
        ensures { OnOk result ((n : ℕ) → step_at self.new n ≡ (if n == number then step else step_at self.old n)) }
    {
        self.grow(number)?;
        self.steps.set(number as usize, step);
        Ok(())
    }
}

/// For each mark a step.
#[derive(Debug, Drop)]
pub(crate) struct StepTable {
    pub(crate) commands: Table,
    pub(crate) prologues: Table,
    pub(crate) releases: Table,
}

impl StepTable {
    /// Each mark has the step `none`.
    pub(crate) fn new(alloc: Global, none: u32) -> StepTable
        ensures { (mark : Mark) → step_for result mark ≡ none }
    {
        StepTable {
            commands: Table::new(alloc, none),
            prologues: Table::new(alloc, none),
            releases: Table::new(alloc, none),
        }
    }

    /// The step of a mark.
    pub(crate) fn step_for(&self, mark: Mark) -> u32
        ensures { result ≡ step_for self.now mark }
    {
        match mark {
            Mark::Command(command) => self.commands.step_at(command),
            Mark::Prologue(group) => self.prologues.step_at(group),
            Mark::Release(group) => self.releases.step_at(group),
        }
    }

    /// Gives a mark another step.
    pub(crate) fn set(&mut self, mark: Mark, step: u32) -> Result<(), NoMemory>
        ensures { OnOk result ((other : Mark) → step_for self.new other ≡ (if same other mark then step else step_for self.old other)) }
    {
        match mark {
            Mark::Command(command) => self.commands.set(command, step),
            Mark::Prologue(group) => self.prologues.set(group, step),
            Mark::Release(group) => self.releases.set(group, step),
        }
    }
}
