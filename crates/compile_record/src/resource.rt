//! What each resource has in the submissions.

ghost use Rattle.std.specs.Prelude.{◌≡◌, ◌<◌, ◌≤◌, ◌||◌, ℕ, length, slice_index_or, false, IfOk};
ghost use Rattle.std.specs.List.{All};
ghost use Rattle.compile_groups.specs.Needs.{has_unit};
ghost use Rattle.compile_record.specs.Internal.Resources.{AreTouched, AreFew, all_resources, next_resource, next_assigned};
ghost use Rattle.compile_record.specs.Pieces.{has_piece, has_memory};

use base::{List, NoMemory};
use compile_groups::{Groups, Use};
use std::alloc::Global;

/// A unit, or the buffer that an export is copied into.
#[derive(Clone, Copy, Debug, PartialEq, Eq)]
pub(crate) struct Resource {
    pub(crate) has_piece: bool,
    /// Whether it has a memory of its own. With a piece and no such memory it is placed in the heap.
    pub(crate) has_memory: bool,
    /// The number of its piece, if it has one.
    pub(crate) piece: u32,
    /// The number of its memory.
    pub(crate) memory: u32,
    /// The number of its place, if it is placed.
    pub(crate) place: u32,
}

/// How many pieces, memories and places were given to the resources so far. The heap is not counted.
#[derive(Clone, Copy, Debug, PartialEq, Eq)]
pub(crate) struct Assigned {
    pub(crate) pieces: u32,
    pub(crate) memories: u32,
    pub(crate) places: u32,
}

impl Assigned {
    // The next resource, with its numbers.
    fn assign(&mut self, has_piece: bool, has_memory: bool) -> Resource
        requires { AreFew self.old }
        ensures resource { result ≡ next_resource self.old has_piece has_memory }
        ensures assigned { self.new ≡ next_assigned self.old has_piece has_memory }
    {
        let resource = Resource {
            has_piece,
            has_memory,
            piece: self.pieces,
            memory: if has_memory { 1 + self.memories } else { 0 },
            place: self.places,
        };
        self.pieces += u32::from(has_piece);
        self.memories += u32::from(has_memory);
        self.places += u32::from(has_piece && !has_memory);
        resource
    }
}

// Marks the units that these use.
fn touch(touched: &mut List<bool>, uses: &[Use])
    requires { All (λ u. u.unit < length touched.old) uses.now }
    ensures count { length touched.new ≡ length touched.old }
    ensures told { (unit : ℕ) → slice_index_or touched.new unit false ≡ (has_unit unit uses.now || slice_index_or touched.old unit false) }
{
    for one in uses {
        touched.set(one.unit as usize, true);
    }
}

// For each unit whether a command uses it.
fn touched(alloc: Global, groups: &Groups) -> Result<List<bool>, NoMemory>
    ensures { IfOk result (AreTouched groups.now) }
{
    let mut touched = List::from_vec(vec![in alloc; false; groups.unit_count() as usize]?);
    for g in 0..groups.group_count() {
        touch(&mut touched, groups.members(g));
    }
    Ok(touched)
}

fn has_piece(groups: &Groups, touched: &[bool], r: u32) -> bool
    requires { AreTouched groups.now touched.now }
    ensures { result ≡ has_piece groups.now r }
{
    groups.unit_count() <= r || touched[r as usize]
}

fn has_memory(groups: &Groups, touched: &[bool], r: u32) -> bool
    requires { AreTouched groups.now touched.now }
    ensures { result ≡ has_memory groups.now r }
{
    groups.unit_count() <= r || (touched[r as usize] && groups.is_import(r))
}

/// All resources, by their numbers.
pub(crate) fn all_resources(
    alloc: Global,
    groups: &Groups,
    count: u32,
) -> Result<List<Resource>, NoMemory>
    requires count { count ≡ length groups.now.shapes }
    requires few { count ≤ 288 }
    ensures { IfOk result (λ list. list ≡ all_resources groups.now) }
{
    let touched = touched(alloc, groups)?;
    let mut list = List::new(alloc);
    let mut assigned = Assigned {
        pieces: 0,
        memories: 0,
        places: 0,
    };
    for r in 0..count {
        let has_piece = has_piece(groups, &touched, r);
        let has_memory = has_memory(groups, &touched, r);
        list.push(assigned.assign(has_piece, has_memory))?;
    }
    Ok(list)
}
