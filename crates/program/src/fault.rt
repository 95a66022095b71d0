//! What can be wrong with a submission file.

ghost use Rattle.std.specs.Prelude.{◌≡◌};
ghost use Rattle.program.specs.Faults.{over_limit, not_json, misshapen};

use crate::rule::Rule;
use base::{Limit, List, Path};
use std::alloc::Global;

/// The first rule that a submission file breaks, and where. The number is the one that the fault line prints after `G`.
#[derive(Debug, Drop)]
pub struct ProgramFault {
    pub number: u8,
    /// The quantity that is over its limit, at G1 alone.
    pub limit: Option<Limit>,
    pub location: Path,
}

impl ProgramFault {
    /// G1: a quantity is over its limit.
    pub fn over_limit(limit: Limit, location: Path) -> Self
        ensures { result ≡ over_limit limit location }
    {
        ProgramFault {
            number: Rule::Limits.number(),
            limit: Some(limit),
            location,
        }
    }

    /// G10: the bytes are no JSON value.
    pub fn not_json(alloc: Global) -> Self
        ensures { result ≡ not_json }
    {
        ProgramFault {
            number: 10,
            limit: None,
            location: List::new(alloc),
        }
    }

    /// G11: the value at this location does not have the form of its member.
    pub fn misshapen(location: Path) -> Self
        ensures { result ≡ misshapen location }
    {
        ProgramFault {
            number: 11,
            limit: None,
            location,
        }
    }
}
