//! Where a reader stands in a file.

ghost use Rattle.std.specs.Prelude.{◌≡◌, [], ◌∷◌, ◌++◌, IfOk};
ghost use Rattle.base.specs.declared.path.Leg.TheVariants as leg;
ghost use Rattle.file_json.specs.Locations.{legs};
ghost use Rattle.file_json.specs.Reading.{Refuses};

use crate::ReadError;
use base::{Leg, List, NoMemory, Path};
use std::alloc::Global;

/// A location in a file, linked to the location round it. It owns nothing: reading makes no path until there is a fault.
#[derive(Drop)]
pub enum Location<'a> {
    Top,
    Member(&'a Location<'a>, &'a str),
    Position(&'a Location<'a>, u32),
}

impl<'a> Location<'a> {
    /// The location of a member.
    pub fn member(&'a self, name: &'a str) -> Location<'a>
        ensures { legs result ≡ legs self.now ++ leg.Member name.now ∷ [] }
    {
        Location::Member(self, name)
    }

    /// The location of an entry.
    pub fn entry(&'a self, at: u32) -> Location<'a>
        ensures { legs result ≡ legs self.now ++ leg.Position at ∷ [] }
    {
        Location::Position(self, at)
    }

    /// The fault here.
    pub fn refused(&self, alloc: Global) -> ReadError
        ensures { Refuses result (legs self.now) }
    {
        match self.path(alloc) {
            Ok(path) => ReadError::Refused(path),
            Err(NoMemory) => ReadError::NoMemory,
        }
    }

    /// The path from the root of the file.
    pub fn path(&self, alloc: Global) -> Result<Path, NoMemory>
        ensures { IfOk result (λ path. path ≡ legs self.now) }
    {
        match self {
            Location::Top => Ok(List::new(alloc)),
            Location::Member(up, name) => {
                let mut path = up.path(alloc)?;
                path.push(Leg::Member(List::from_slice(alloc, name.as_bytes())?))?;
                Ok(path)
            }
            Location::Position(up, at) => {
                let mut path = up.path(alloc)?;
                path.push(Leg::Position(*at))?;
                Ok(path)
            }
        }
    }
}
