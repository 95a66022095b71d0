//! Which passes make the versions of each unit.

ghost use Rattle.std.specs.Prelude.{◌≡◌, ◌==◌, ◌<◌, ◌≤◌, ◌++◌, map, length, Some, None, IfOk, OnOk, slice_get};
ghost use Rattle.std.specs.List.{All, filter_map, range_with_len};
ghost use Rattle.frame.specs.Numbered.{numbered};
ghost use Rattle.frame_cull.specs.Internal.Rows.{grown, added, added_numbers};
ghost use Rattle.frame_cull.specs.Versions.{row_of, imported, versions, latest, latest_maker, changes};

use base::{List, NoMemory};
use frame::{ValidFrame, Write};
use std::alloc::Global;
use std::marker::Model;

/// For each unit its versions in order, each with the pass that makes it: an import's first has none.
#[derive(Drop)]
pub(crate) struct Makers {
    rows: Vec<List<Option<u32>>>,
}

impl Model for Makers {
    ghost use Rattle.std.specs.Prelude.{ℕ, List, Option, ◌≤◌, ◌^◌, length};
    ghost use Rattle.std.specs.List.{All};

    ghost Value = { List (List (Option ℕ)) };

    ghost view = { λ m. m.rows.items };

    ghost invariant = { λ m. All (λ row. length row ≤ 2 ^ 32) m.rows.items };
}

// The versions of a unit before the first pass.
fn imported(alloc: Global, frame: &ValidFrame, unit: u32) -> Result<List<Option<u32>>, NoMemory>
    requires { unit < length (numbered frame.now).units }
    ensures row { IfOk result (λ row. row ≡ imported (numbered frame.now) unit) }
    ensures small { IfOk result (λ row. length row ≤ 1) }
{
    let mut row = List::new(alloc);
    if frame.is_import(unit) {
        row.push(None)?;
    }
    Ok(row)
}

impl Makers {
    /// The versions before the first pass.
    pub fn new(alloc: Global, frame: &ValidFrame) -> Result<Makers, NoMemory>
        ensures { IfOk result (λ makers. makers ≡ map (versions (numbered frame.now) 0) (range_with_len 0 (length (numbered frame.now).units))) }
    {
        let mut rows = Vec::new(alloc);
        for unit in 0..frame.unit_count() {
            rows.push(imported(alloc, frame, unit)?)?;
        }
        Ok(Makers { rows })
    }

    /// Whether a unit has no version.
    pub fn is_empty(&self, unit: u32) -> bool
        requires { unit < length self.now }
        ensures { result ≡ (length (row_of self.now unit) == 0) }
    {
        self.rows[unit as usize].is_empty()
    }

    /// The number of the latest version of a unit.
    pub fn latest(&self, unit: u32) -> u32
        requires { unit < length self.now }
        ensures { result ≡ latest (row_of self.now unit) }
    {
        let count = self.rows[unit as usize].len();
        count.saturating_sub(1) as u32
    }

    /// The pass that makes a version of a unit, where a pass makes it.
    pub fn maker(&self, unit: u32, version: u32) -> Option<u32>
        requires unit { unit < length self.now }
        requires version { version < length (row_of self.now unit) }
        ensures { slice_get (row_of self.now unit) version ≡ Some result }
    {
        self.rows[unit as usize][version as usize]
    }

    /// The pass that makes the latest version of a unit.
    pub fn latest_maker(&self, unit: u32) -> Option<u32>
        requires { unit < length self.now }
        ensures { result ≡ latest_maker (row_of self.now unit) }
    {
        match self.rows[unit as usize].last() {
            Some(maker) => *maker,
            None => None,
        }
    }

    /// The numbers of the latest versions of these units.
    pub fn all_latest(&self, alloc: Global, units: &[u32]) -> Result<List<u32>, NoMemory>
        requires { All (λ unit. unit < length self.now) units.now }
        ensures { IfOk result (λ numbers. numbers ≡ map (λ unit. latest (row_of self.now unit)) units.now) }
    {
        let mut numbers = List::new(alloc);
        for unit in units {
            numbers.push(self.latest(*unit))?;
        }
        Ok(numbers)
    }

    // Adds the passes that make the latest versions of what is read.
    fn read_sources(&self, sources: &mut List<u32>, units: &[u32]) -> Result<(), NoMemory>
        requires { All (λ unit. unit < length self.now) units.now }
        ensures { OnOk result (sources.new ≡ sources.old ++ filter_map (λ unit. latest_maker (row_of self.now unit)) units.now) }
    {
        for unit in units {
            if let Some(maker) = self.latest_maker(*unit) {
                sources.push(maker)?;
            }
        }
        Ok(())
    }

    // Adds the passes that make the latest versions of what is changed.
    fn change_sources(&self, sources: &mut List<u32>, writes: &[Write<u32>]) -> Result<(), NoMemory>
        requires { All (λ w. w.what < length self.now) writes.now }
        ensures { OnOk result (sources.new ≡ sources.old ++ filter_map (λ unit. latest_maker (row_of self.now unit)) (changes writes.now)) }
    {
        for write in writes {
            if !write.fresh {
                if let Some(maker) = self.latest_maker(write.what) {
                    sources.push(maker)?;
                }
            }
        }
        Ok(())
    }

    /// The passes that make the latest versions of what is read or changed.
    pub fn sources(
        &self,
        alloc: Global,
        reads: &[u32],
        writes: &[Write<u32>],
    ) -> Result<List<u32>, NoMemory>
        requires reads { All (λ unit. unit < length self.now) reads.now }
        requires writes { All (λ w. w.what < length self.now) writes.now }
        ensures { IfOk result (λ sources. sources ≡ filter_map (λ unit. latest_maker (row_of self.now unit)) (reads.now ++ changes writes.now)) }
    {
        let mut sources = List::new(alloc);
        self.read_sources(&mut sources, reads)?;
        self.change_sources(&mut sources, writes)?;
        Ok(sources)
    }

    // Adds a version, and gives its number.
    fn grow(&mut self, pass: u32, unit: u32) -> Result<u32, NoMemory>
        requires { unit < length self.old }
        ensures number { IfOk result (λ number. number ≡ length (row_of self.old unit)) }
        ensures rows { OnOk result (self.new ≡ grown pass unit self.old) }
    {
        let Ok(number) = u32::try_from(self.rows[unit as usize].len()) else {
            return Err(NoMemory);
        };
        self.rows[unit as usize].push(Some(pass))?;
        Ok(number)
    }

    /// Adds the versions that a pass makes, and gives their numbers.
    pub fn add(
        &mut self,
        alloc: Global,
        pass: u32,
        writes: &[Write<u32>],
    ) -> Result<List<u32>, NoMemory>
        requires { All (λ w. w.what < length self.old) writes.now }
        ensures numbers { IfOk result (λ numbers. numbers ≡ added_numbers pass writes.now self.old) }
        ensures rows { OnOk result (self.new ≡ added pass writes.now self.old) }
    {
        let mut numbers = List::new(alloc);
        for write in writes {
            numbers.push(self.grow(pass, write.what)?)?;
        }
        Ok(numbers)
    }
}
