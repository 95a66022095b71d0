//! The first broken rule of a file.

ghost use Rattle.std.specs.Prelude.{◌≡◌};
ghost use Rattle.std.specs.Option.{option_map};
ghost use Rattle.base.specs.Broken.{of_rule, over_limit};

use crate::Limit;

/// The first rule of `R` that a file breaks, and where. The limit is the one that the file goes over, at the rule on
/// limits alone.
#[derive(Clone, Copy, Debug)]
pub struct Broken<R, P> {
    pub rule: R,
    pub limit: Option<Limit>,
    pub location: P,
}

impl<R: Drop, P: Drop> Broken<R, P> {
    /// A rule that is none on limits is broken.
    pub fn of_rule(rule: R, location: P) -> Self
        ensures { result ≡ of_rule rule location }
    {
        Broken {
            rule,
            limit: None,
            location,
        }
    }

    /// The rule on limits is broken.
    pub fn over_limit(rule: R, limit: Limit, location: P) -> Self
        ensures { result ≡ over_limit rule limit location }
    {
        Broken {
            rule,
            limit: Some(limit),
            location,
        }
    }

    /// A rule that is none on limits, where it is broken at a location.
    pub fn at(rule: R, location: Option<P>) -> Option<Self>
        ensures { result ≡ option_map (of_rule rule) location }
    {
        match location {
            Some(location) => Some(Broken::of_rule(rule, location)),
            None => None,
        }
    }
}
