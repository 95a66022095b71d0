//! Rows of numbers, one behind the other.

ghost use Rattle.std.specs.Prelude.{◌≡◌, ◌≢◌, ◌⊎◌, ◌<◌, ◌≤◌, ◌+◌, ◌*◌, ℕ, length, min, get_or};
ghost use Rattle.base_first.specs.Bits.{bit};
ghost use Rattle.base_first.specs.Internal.Rows.{entry, OthersKept, Taken, Given, Copied, Put};

/// Whether the number is in the set.
pub(crate) fn has(set: u64, c: usize) -> bool
    requires c { c < 64 }
    ensures { result ≡ bit set c }
{
    set >> c & 1 == 1
}

// Row `i` takes the lesser ones of its own numbers and those of row `j`.
pub(crate) fn take_row(numbers: &mut [u32], width: usize, i: usize, j: usize)
    requires i { i * width + width ≤ length numbers.old }
    requires j { j * width + width ≤ length numbers.old }
    requires apart { i ≢ j }
    ensures length { length numbers.new ≡ length numbers.old }
    ensures taken { (e : ℕ) → e < width → entry numbers.new width i e ≡ min (entry numbers.old width i e) (entry numbers.old width j e) }
    ensures others { OthersKept width i numbers.old numbers.new }
{
    let (to, from) = (i * width, j * width);
    for e in 0..width {
        let other = numbers[from + e];
        if other < numbers[to + e] {
            numbers[to + e] = other;
        }
    }
}

// Row `i` becomes what row `j` is.
fn copy_row(numbers: &mut [u32], width: usize, i: usize, j: usize)
    requires i { i * width + width ≤ length numbers.old }
    requires j { j * width + width ≤ length numbers.old }
    requires apart { i ≢ j }
    ensures length { length numbers.new ≡ length numbers.old }
    ensures copied { (e : ℕ) → e < width → entry numbers.new width i e ≡ entry numbers.old width j e }
    ensures others { OthersKept width i numbers.old numbers.new }
{
    let (to, from) = (i * width, j * width);
    for e in 0..width {
        numbers[to + e] = numbers[from + e];
    }
}

/// Row `i` takes the least of its own numbers and those of the rows from `base` on that the set names.
pub(crate) fn take_rows(
    numbers: &mut [u32],
    width: usize,
    i: usize,
    base: usize,
    rows: usize,
    set: u64,
)
    requires few { rows ≤ 64 }
    requires i { i < base }
    requires room { base + rows ≤ 4194304 }
    requires within { (base + rows) * width ≤ length numbers.old }
    ensures length { length numbers.new ≡ length numbers.old }
    ensures taken { Taken set rows width base i numbers.old numbers.new }
{
    for c in 0..rows {
        if has(set, c) {
            take_row(numbers, width, i, base + c);
        }
    }
}

/// The rows from `base` on that the set names take the lesser ones of their own numbers and those of row `i`.
pub(crate) fn give_row(
    numbers: &mut [u32],
    width: usize,
    i: usize,
    base: usize,
    rows: usize,
    set: u64,
)
    requires few { rows ≤ 64 }
    requires i { i < base }
    requires room { base + rows ≤ 4194304 }
    requires within { (base + rows) * width ≤ length numbers.old }
    ensures length { length numbers.new ≡ length numbers.old }
    ensures given { Given set rows width base i numbers.old numbers.new }
{
    for c in 0..rows {
        if has(set, c) {
            take_row(numbers, width, base + c, i);
        }
    }
}

/// The rows from `to` on become what those from `from` on are.
pub(crate) fn copy_rows(numbers: &mut [u32], width: usize, to: usize, from: usize, rows: usize)
    requires order { from + rows ≤ to }
    requires within { (to + rows) * width ≤ length numbers.old }
    requires room { to + rows ≤ 4194304 }
    ensures length { length numbers.new ≡ length numbers.old }
    ensures copied { Copied rows width to from numbers.old numbers.new }
{
    for c in 0..rows {
        copy_row(numbers, width, to + c, from + c);
    }
}

/// In row `i` the number comes to those places from `first` on that the set names.
pub(crate) fn put(
    numbers: &mut [u32],
    width: usize,
    i: usize,
    first: usize,
    places: usize,
    set: u64,
    number: u32,
)
    requires few { places ≤ 64 }
    requires first { first + places ≤ width }
    requires within { i * width + width ≤ length numbers.old }
    ensures length { length numbers.new ≡ length numbers.old }
    ensures put { Put set places number width first i numbers.old numbers.new }
{
    let start = i * width + first;
    for c in 0..places {
        if has(set, c) {
            numbers[start + c] = number;
        }
    }
}
