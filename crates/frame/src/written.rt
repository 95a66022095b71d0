//! What is read or changed was written.

ghost use Rattle.std.specs.Prelude.{◌≡◌, ◌<◌, ◌&&◌, ◌||◌, not, length, true, false, IfOk, IfErr, Some, None, ℕ, ◌==◌};
ghost use Rattle.std.specs.List.{All, position, list_any};
ghost use Rattle.base.specs.Walks.{first_in};
ghost use Rattle.frame.specs.Numbered.{IsWithin};
ghost use Rattle.frame.specs.Uses.{is_there, is_marked, is_missing, unwritten_in, unwritten_at, unwritten};

use crate::Write;
use crate::location::Location;
use crate::numbered::{Span, Stored, Uses};
use base::List;

fn is_marked(marks: &[bool], unit: u32) -> bool
    ensures { result ≡ is_marked marks.now unit }
{
    match marks.get(unit as usize) {
        Some(mark) => *mark,
        None => false,
    }
}

fn is_missing(marks: &[bool], wanted: Span) -> bool
    ensures { result ≡ is_missing (is_marked marks.now) wanted }
{
    (wanted.first..wanted.end).any(|unit| !is_marked(marks, unit))
}

fn missing_entry(marks: &[bool], entries: &[Span]) -> Option<usize>
    ensures { result ≡ position (is_missing (is_marked marks.now)) entries.now }
{
    entries.iter().position(|units| is_missing(marks, *units))
}

fn missing_change(marks: &[bool], writes: &[Stored]) -> Option<usize>
    ensures { result ≡ position (λ w. not w.fresh && is_missing (is_marked marks.now) w.units) writes.now }
{
    writes
        .iter()
        .position(|write| !write.fresh && is_missing(marks, write.units))
}

fn unwritten_in(marks: &[bool], p: usize, uses: &Uses) -> Option<Location>
    ensures { result ≡ unwritten_in (is_marked marks.now) p uses.now }
{
    if let Some(k) = missing_entry(marks, &uses.reads) {
        return Some(Location::Read(p, k));
    }
    match missing_change(marks, &uses.writes) {
        Some(j) => Some(Location::Write(p, j)),
        None => None,
    }
}

// Marks the unit of this write, if it makes it.
#[tactic(auto, using(crate::proofs::Marks::marked_one, crate::proofs::Marks::not_marked))]
fn mark_one(marks: List<bool>, write: Write<u32>) -> List<bool>
    requires { write.what < length marks }
    ensures size { length result ≡ length marks }
    ensures marks { (u : ℕ) → is_marked result u ≡ (is_marked marks u || (write.fresh && write.what == u)) }
{
    let mut marks = marks;
    if write.fresh {
        marks.set(write.what as usize, true);
    }
    marks
}

// Marks the units that these writes make.
#[tactic(auto, using(crate::proofs::Marks::marks_on, crate::proofs::Marks::marks_none))]
fn mark(marks: List<bool>, writes: &[Write<u32>]) -> List<bool>
    requires { All (λ w. w.what < length marks) writes.now }
    ensures size { length result ≡ length marks }
    ensures marks { (u : ℕ) → is_marked result u ≡ (is_marked marks u || list_any (λ w. w.fresh && w.what == u) writes.now) }
{
    let mut all = marks;
    for write in writes {
        all = mark_one(all, *write);
    }
    all
}

// The units that are there after these passes, or the first location where one is missing.
#[tactic(auto, using(crate::proofs::Marks::there_on, crate::proofs::Marks::there_none, crate::proofs::Marks::missing_on, crate::proofs::Marks::same_place))]
fn after_passes(
    imported: List<bool>,
    queues: usize,
    passes: &[Uses],
) -> Result<List<bool>, Location>
    requires { All (λ uses. IsWithin queues (length imported) uses.pass) passes.now }
    ensures missing { IfErr result (λ location. first_in (unwritten_at imported passes.now) 0 passes.now ≡ Some location) }
    ensures none { IfOk result (λ marks. first_in (unwritten_at imported passes.now) 0 passes.now ≡ None) }
    ensures marks { IfOk result (λ marks. (u : ℕ) → is_marked marks u ≡ is_there imported passes.now u) }
{
    let mut marks = imported;
    for (p, uses) in passes.iter().enumerate() {
        if let Some(location) = unwritten_in(&marks, p, uses) {
            return Err(location);
        }
        marks = mark(marks, &uses.pass.writes);
    }
    Ok(marks)
}

/// The first entry of which a unit is no import and no earlier pass made it.
#[tactic(auto, using(crate::proofs::Marks::same_missing))]
pub(crate) fn unwritten(
    imported: List<bool>,
    queues: usize,
    passes: &[Uses],
    exports: &[Span],
) -> Option<Location>
    requires { All (λ uses. IsWithin queues (length imported) uses.pass) passes.now }
    ensures { result ≡ unwritten imported passes.now exports.now }
{
    match after_passes(imported, queues, passes) {
        Err(location) => Some(location),
        Ok(marks) => match missing_entry(&marks, exports) {
            Some(i) => Some(Location::Export(i)),
            None => None,
        },
    }
}
