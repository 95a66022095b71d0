//! From the first group of a unit to its last.

ghost use Rattle.std.specs.Prelude.{◌≡◌, ◌<◌, length, true, IfOk};
ghost use Rattle.std.specs.List.{All};
ghost use Rattle.compile_groups.specs.Needs.{group_at, is_touched};
ghost use Rattle.compile_groups.specs.Placed.{placed};
ghost use Rattle.compile_lifetimes.specs.Internal.Lifetimes.{IsStart, IsLifetime, AreLifetimes};

use base::{List, NoMemory};
use compile_groups::Groups;
use std::alloc::Global;

/// All groups of a unit: they stand side by side.
#[derive(Clone, Copy)]
pub(crate) struct Lifetime {
    pub first: u32,
    pub last: u32,
}

fn unit_of(groups: &Groups, g: u32) -> u32
    requires { g < length groups.now.groups }
    ensures { All (λ u. u.unit ≡ result) (group_at groups.now g) }
{
    groups.members(g)[0].unit
}

// How many groups are of units below this one: with that number its own begin.
fn start_of(groups: &Groups, unit: u64) -> u32
    ensures { IsStart groups.now unit result }
{
    let mut low = 0;
    let mut high = groups.group_count();
    while low < high {
        let middle = low + (high - low) / 2;
        if u64::from(unit_of(groups, middle)) < unit {
            low = middle + 1;
        } else {
            high = middle;
        }
    }
    low
}

fn lifetime_of(groups: &Groups, unit: u32) -> Lifetime
    requires { is_touched groups.now unit ≡ true }
    ensures { IsLifetime groups.now unit result }
{
    let unit = u64::from(unit);
    Lifetime {
        first: start_of(groups, unit),
        last: start_of(groups, unit + 1) - 1,
    }
}

/// For each placed unit its lifetime.
pub(crate) fn lifetimes_of(alloc: Global, groups: &Groups) -> Result<List<Lifetime>, NoMemory>
    ensures { IfOk result (AreLifetimes groups.now (length (placed groups.now))) }
{
    let mut lifetimes = List::new(alloc);
    let placed = groups.placed();
    for unit in placed {
        lifetimes.push(lifetime_of(groups, *unit))?;
    }
    Ok(lifetimes)
}
