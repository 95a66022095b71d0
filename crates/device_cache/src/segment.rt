//! Segments in the order of their addresses.

ghost use Rattle.std.specs.Prelude.{◌≡◌, ◌<◌, ◌≤◌, ◌+◌, ℕ, length, not, true, false, if◌then◌else◌, slice_set, vec_len, vec_capacity};
ghost use Rattle.std.specs.List.{insert};
ghost use Rattle.device_cache.specs.Internal.Rows.{ChangeIn, RowIn};
ghost use Rattle.device_cache.specs.Places.{place, row_at, cut_in, segment_at};
ghost use Rattle.device_cache.specs.Internal.Segments.{covers, changed_segment, changed_in, Ascending, IsLaid};
ghost use Rattle.device_cache.specs.Internal.Uses.{row_uses, uses, Counts};

use crate::change::Change;
use crate::counts::{raise_row, recount};
use crate::row::Row;

/// Addresses that one row stands for: those from the end of the segment before it up to its own end.
#[derive(Clone, Copy, Debug)]
pub(crate) struct Segment {
    pub end: u32,
    pub row: Row,
}

/// How many segments end at or before the address.
pub(crate) fn place_of(segments: &[Segment], at: u32) -> usize
    requires ascending { Ascending segments.now }
    ensures bound { result ≤ length segments.now }
    ensures place { result ≡ place segments.now at }
{
    let mut low = 0;
    let mut high = segments.len();
    while low < high {
        let middle = low + (high - low) / 2;
        if segments[middle].end <= at {
            low = middle + 1;
        } else {
            high = middle;
        }
    }
    low
}

// Whether a segment ends at the address, or it is the first one. `index` is how many segments end at or before it.
fn is_edge(segments: &[Segment], at: u32, index: usize) -> bool
    requires ascending { Ascending segments.now }
    requires bound { index ≤ length segments.now }
    requires index { index ≡ place segments.now at }
    ensures { result ≡ cut_in segments.now at }
{
    if index == 0 {
        at == 0
    } else {
        segments[index - 1].end == at
    }
}

/// Cuts the segment that has the address, unless a segment begins there. Says whether it did.
pub(crate) fn cut_at(segments: &mut Vec<Segment>, counts: &mut Vec<u32>, at: u32) -> bool
    requires ascending { Ascending segments.old.items }
    requires laid { IsLaid (length counts.old.items) segments.old.items }
    requires counted { Counts counts.old.items (λ slot. uses slot segments.old.items) }
    requires within { cut_in segments.old.items at ≡ false → place segments.old.items at < length segments.old.items }
    requires room { cut_in segments.old.items at ≡ false → vec_len segments.old < vec_capacity segments.old }
    ensures cut { cut_in segments.old.items at ≡ not result }
    ensures len { vec_len segments.new ≡ (if result then vec_len segments.old + 1 else vec_len segments.old) }
    ensures capacity { vec_capacity segments.old ≤ vec_capacity segments.new }
    ensures ascending { Ascending segments.new.items }
    ensures covers { (x : ℕ) → covers segments.new.items x ≡ covers segments.old.items x }
    ensures rows { (x : ℕ) → row_at segments.new.items x ≡ row_at segments.old.items x }
    ensures counts { length counts.new.items ≡ length counts.old.items }
    ensures counts_len { vec_len counts.new ≡ vec_len counts.old }
    ensures counts_capacity { vec_capacity counts.new ≡ vec_capacity counts.old }
    ensures counted { Counts counts.new.items (λ slot. uses slot segments.new.items) }
    ensures here { cut_in segments.new.items at ≡ true }
    ensures kept { (x : ℕ) → cut_in segments.old.items x ≡ true → cut_in segments.new.items x ≡ true }
{
    let index = place_of(segments, at);
    if is_edge(segments, at, index) {
        return false;
    }
    let row = segments[index].row;
    count_row(counts, &row);
    insert_reserved(segments, index, Segment { end: at, row });
    true
}

fn count_row(counts: &mut Vec<u32>, row: &Row)
    requires { RowIn (length counts.old.items) row.now }
    ensures counted { (f : ℕ → ℕ) → Counts counts.old.items f → Counts counts.new.items (λ slot. f slot + row_uses slot row.now) }
    ensures counts { length counts.new.items ≡ length counts.old.items }
    ensures len { vec_len counts.new ≡ vec_len counts.old }
    ensures capacity { vec_capacity counts.new ≡ vec_capacity counts.old }
{
    raise_row(counts, row);
}

fn insert_reserved(segments: &mut Vec<Segment>, index: usize, segment: Segment)
    requires index { index ≤ vec_len segments.old }
    requires room { vec_len segments.old < vec_capacity segments.old }
    ensures items { segments.new.items ≡ insert segments.old.items index segment }
    ensures len { vec_len segments.new ≡ vec_len segments.old + 1 }
    ensures capacity { vec_capacity segments.old ≤ vec_capacity segments.new }
{
    let _inserted = segments.insert(index, segment);
}

/// Changes the segments from number `first` on up to number `last`.
pub(crate) fn change_all(
    segments: &mut Vec<Segment>,
    counts: &mut Vec<u32>,
    first: usize,
    last: usize,
    agent: usize,
    change: Change,
)
    requires first { first ≤ last }
    requires last { last ≤ length segments.old.items }
    requires laid { IsLaid (length counts.old.items) segments.old.items }
    requires agent { agent < 32 }
    requires change { first < last → ChangeIn (length counts.old.items) change }
    requires counted { Counts counts.old.items (λ slot. uses slot segments.old.items) }
    ensures each { (k : ℕ) → k < length segments.old.items → segment_at segments.new.items k ≡ changed_in first last agent change k (segment_at segments.old.items k) }
    ensures length { length segments.new.items ≡ length segments.old.items }
    ensures len { vec_len segments.new ≡ vec_len segments.old }
    ensures capacity { vec_capacity segments.new ≡ vec_capacity segments.old }
    ensures counted { Counts counts.new.items (λ slot. uses slot segments.new.items) }
    ensures counts { length counts.new.items ≡ length counts.old.items }
    ensures counts_len { vec_len counts.new ≡ vec_len counts.old }
    ensures counts_capacity { vec_capacity counts.new ≡ vec_capacity counts.old }
{
    change_in(segments, counts, first, last, agent, change);
}

fn change_in(
    segments: &mut [Segment],
    counts: &mut [u32],
    first: usize,
    last: usize,
    agent: usize,
    change: Change,
)
    requires first { first ≤ last }
    requires last { last ≤ length segments.old }
    requires laid { IsLaid (length counts.old) segments.old }
    requires agent { agent < 32 }
    requires change { first < last → ChangeIn (length counts.old) change }
    requires counted { Counts counts.old (λ slot. uses slot segments.old) }
    ensures counted { Counts counts.new (λ slot. uses slot segments.new) }
    ensures each { (k : ℕ) → k < length segments.old → segment_at segments.new k ≡ changed_in first last agent change k (segment_at segments.old k) }
{
    for k in first..last {
        change_at(segments, counts, k, agent, change);
    }
}

fn change_at(segments: &mut [Segment], counts: &mut [u32], k: usize, agent: usize, change: Change)
    requires there { k < length segments.old }
    requires row { RowIn (length counts.old) (segment_at segments.old k).row }
    requires agent { agent < 32 }
    requires change { ChangeIn (length counts.old) change }
    requires counted { Counts counts.old (λ slot. uses slot segments.old) }
    ensures items { segments.new ≡ slice_set segments.old k (changed_segment agent change (segment_at segments.old k)) }
    ensures counted { Counts counts.new (λ slot. uses slot segments.new) }
{
    if segments[k].row.is_left(agent, change) {
        return;
    }
    recount(counts, &segments[k].row, agent, change);
    segments[k].row.change(agent, change);
}
