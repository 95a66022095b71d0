//! Where in a file a fault is.

ghost use Rattle.std.specs.Prelude.{◌≡◌, ◌++◌, ◌∷◌, [], IfOk};
ghost use Rattle.base.specs.Paths.{entry};
ghost use Rattle.base.specs.declared.path.Leg.TheVariants.{Member};

use crate::{List, NoMemory};
use std::alloc::Global;

/// A step from a JSON value to a part of it.
#[derive(Debug, Drop)]
pub enum Leg {
    /// Into the member of an object with this key, as bytes of UTF-8.
    Member(List<u8>),
    /// To the entry of a list at this position, counted from 0.
    Position(u32),
}

/// The steps from the root of the file, which is the empty path.
pub type Path = List<Leg>;

impl List<Leg> {
    /// The path to a member of what it leads to.
    pub fn member(self, alloc: Global, key: &[u8]) -> Result<Path, NoMemory>
        ensures { IfOk result (λ path. path ≡ self ++ Member key.now ∷ []) }
    {
        let mut path = self;
        path.push(Leg::Member(List::from_slice(alloc, key)?))?;
        Ok(path)
    }

    /// The path to an entry of the list that is a member of what it leads to. Where a path holds no such position, that
    /// is want of memory: a list of 2^32 entries cannot be held beside what it is of.
    pub fn entry(self, alloc: Global, list: &[u8], position: usize) -> Result<Path, NoMemory>
        ensures { IfOk result (λ path. path ≡ self ++ entry list.now position) }
    {
        let Ok(position) = u32::try_from(position) else {
            return Err(NoMemory);
        };
        let mut path = self.member(alloc, list)?;
        path.push(Leg::Position(position))?;
        Ok(path)
    }
}
