//! The versions of a frame's units.

ghost use Rattle.std.specs.Prelude.{◌≡◌, ◌<◌, ◌+◌, ◌-◌, length, IfOk, OnOk, Some, None, slice_get};
ghost use Rattle.frame.specs.Numbered.{numbered};
ghost use Rattle.frame_cull.specs.Versions.{row_of, last_number, latest_maker, Numbers, numbers_until, numbers_of, row_at};

use crate::makers::Makers;
use base::{List, NoMemory};
use frame::ValidFrame;
use std::alloc::Global;
use std::marker::Model;

/// A unit gets a version more with each write that is declared for it, and an import has one, 0, before all passes. What
/// a pass reads or changes is the last one that was there before it.
#[derive(Drop)]
pub struct Versions {
    makers: Makers,
    reads: List<List<u32>>,
    writes: List<List<u32>>,
    sources: List<List<u32>>,
}

impl Model for Versions {
    ghost use Rattle.frame_cull.specs.Versions.{Numbers};

    ghost Value = { Numbers };

    ghost view = { λ v. record { makers = v.makers; reads = v.reads; writes = v.writes; sources = v.sources } };
}

/// The versions of a frame's units.
pub fn versions_of(alloc: Global, frame: &ValidFrame) -> Result<Versions, NoMemory>
    ensures { IfOk result (λ versions. versions ≡ numbers_of (numbered frame.now)) }
{
    let mut versions = Versions::new(alloc, frame)?;
    for pass in 0..frame.pass_count() {
        versions.add_pass(alloc, frame, pass)?;
    }
    Ok(versions)
}

impl Versions {
    // Those before the first pass.
    fn new(alloc: Global, frame: &ValidFrame) -> Result<Versions, NoMemory>
        ensures { IfOk result (λ versions. versions ≡ numbers_until (numbered frame.now) 0) }
    {
        Ok(Versions {
            makers: Makers::new(alloc, frame)?,
            reads: List::new(alloc),
            writes: List::new(alloc),
            sources: List::new(alloc),
        })
    }

    // One pass more.
    fn add_pass(&mut self, alloc: Global, frame: &ValidFrame, pass: u32) -> Result<(), NoMemory>
        requires pass { pass < length (numbered frame.now).passes }
        requires before { self.old ≡ numbers_until (numbered frame.now) pass }
        ensures { OnOk result (self.new ≡ numbers_until (numbered frame.now) (pass + 1)) }
    {
        let reads = frame.reads(pass);
        let writes = frame.writes(pass);
        let read = self.makers.all_latest(alloc, reads)?;
        let sources = self.makers.sources(alloc, reads, writes)?;
        let made = self.makers.add(alloc, pass, writes)?;
        self.reads.push(read)?;
        self.writes.push(made)?;
        self.sources.push(sources)?;
        Ok(())
    }

    /// The version that entry k of a pass's reads names.
    pub fn of_read(&self, pass: u32, k: u32) -> u32
        requires pass { pass < length self.now.reads }
        requires k { k < length (row_at self.now.reads pass) }
        ensures { slice_get (row_at self.now.reads pass) k ≡ Some result }
    {
        self.reads[pass as usize][k as usize]
    }

    /// The version that entry k of a pass's writes makes.
    pub fn of_write(&self, pass: u32, k: u32) -> u32
        requires pass { pass < length self.now.writes }
        requires k { k < length (row_at self.now.writes pass) }
        ensures { slice_get (row_at self.now.writes pass) k ≡ Some result }
    {
        self.writes[pass as usize][k as usize]
    }

    /// The pass that makes a version; none makes version 0 of an import.
    pub fn writer(&self, unit: u32, version: u32) -> Option<u32>
        requires unit { unit < length self.now.makers }
        requires version { version < length (row_of self.now.makers unit) }
        ensures { slice_get (row_of self.now.makers unit) version ≡ Some result }
    {
        self.makers.maker(unit, version)
    }

    /// The last version of a unit, if it has one.
    pub fn last(&self, unit: u32) -> Option<u32>
        requires { unit < length self.now.makers }
        ensures { result ≡ last_number (row_of self.now.makers unit) }
    {
        if self.makers.is_empty(unit) {
            None
        } else {
            Some(self.makers.latest(unit))
        }
    }

    /// The pass that makes the last version of a unit, if there is one.
    pub fn last_writer(&self, unit: u32) -> Option<u32>
        requires { unit < length self.now.makers }
        ensures { result ≡ latest_maker (row_of self.now.makers unit) }
    {
        match self.last(unit) {
            Some(version) => self.writer(unit, version),
            None => None,
        }
    }

    /// For each pass the passes that make what it reads or changes.
    pub(crate) fn sources(&self) -> &[List<u32>]
        ensures { result.now ≡ self.now.sources }
    {
        &self.sources
    }
}
