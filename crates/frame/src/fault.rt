//! What can be wrong with a frame file.

ghost use Rattle.std.specs.Prelude.{◌≡◌};
ghost use Rattle.frame.specs.Faults.{over_limit, not_json, misshapen};

use crate::rule::Rule;
use base::{Limit, List, Path};
use std::alloc::Global;

/// The first rule that a frame file breaks, and where. The number is the one that the fault line prints after `F`.
#[derive(Debug, Drop)]
pub struct FrameFault {
    pub number: u8,
    /// The quantity that is over its limit, at F4 alone.
    pub limit: Option<Limit>,
    pub location: Path,
}

impl FrameFault {
    /// F1: the bytes are no JSON value.
    pub fn not_json(alloc: Global) -> Self
        ensures { result ≡ not_json }
    {
        FrameFault {
            number: 1,
            limit: None,
            location: List::new(alloc),
        }
    }

    /// F2: the value at this location does not have the form of its member.
    pub fn misshapen(location: Path) -> Self
        ensures { result ≡ misshapen location }
    {
        FrameFault {
            number: 2,
            limit: None,
            location,
        }
    }

    /// F4: a quantity is over its limit.
    pub fn over_limit(limit: Limit, location: Path) -> Self
        ensures { result ≡ over_limit limit location }
    {
        FrameFault {
            number: Rule::Limits.number(),
            limit: Some(limit),
            location,
        }
    }
}
