//! The closure of rows of bits, from the greatest number down.

ghost use Rattle.std.specs.Prelude.{◌≡◌, ◌<◌, ◌≤◌, ◌↔◌, ◌||◌, ◌+◌, ◌-◌, ◌*◌, ◌/◌, ◌^◌, ◌==◌, ℕ, length, true, false, get_or, bit_or, nat_le, drop, if◌then◌else◌};
ghost use Rattle.base_reach.specs.Bits.{bit};
ghost use Rattle.base_reach.specs.Internal.Closing.{ClosedRows, Reaches, Grown, FirstClosed};
ghost use Rattle.base_reach.specs.Pairs.{pairs_of, Ahead};
ghost use Rattle.base_reach.specs.Paths.{Path};

// Adds the words of `table` from `base` on, from word `first` on.
fn add_words(row: &mut [u64], table: &[u64], base: usize, first: usize)
    requires within { base + length row.old ≤ length table.now }
    ensures length { length row.new ≡ length row.old }
    ensures words { (k : ℕ) → k < length row.old → get_or row.new k 0 ≡ (if nat_le first k then bit_or (get_or row.old k 0) (get_or table.now (base + k) 0) else get_or row.old k 0) }
{
    for k in first..row.len() {
        row[k] |= table[base + k];
    }
}

// Adds number `place` and what the row of `table` that begins at `base` has, which is nothing below `place`.
fn take_row(row: &mut [u64], table: &[u64], base: usize, place: usize)
    requires place { place < 64 * length row.old }
    requires within { base + length row.old ≤ length table.now }
    requires low { (b : ℕ) → b < place → bit table.now (base * 64 + b) ≡ false }
    ensures length { length row.new ≡ length row.old }
    ensures bits { (b : ℕ) → b < 64 * length row.old → bit row.new b ≡ ((b == place) || (bit row.old b || bit table.now (base * 64 + b))) }
{
    let word = place / 64;
    add_words(row, table, base, word);
    row[word] |= 1 << (place % 64);
}

// Takes the numbers of word `at` of `direct` that the row does not have yet, each with its row. A number that an
// earlier one reaches is in the row already, and is passed over.
fn take_word(row: &mut [u64], direct: &[u64], table: &[u64], from: usize, count: usize, at: usize)
    requires few { length row.old ≤ 2 ^ 26 }
    requires at { at < length row.old }
    requires direct { length direct.now ≡ length row.old }
    requires rows { ClosedRows table.now (length row.old) from count }
    requires above { (b : ℕ) → b < 64 * length row.old → bit direct.now b ≡ true → (from ≤ b) × (b < count) }
    requires grown { Grown direct.now table.now (length row.old) from count row.old }
    ensures length { length row.new ≡ length row.old }
    ensures grown { Grown direct.now table.now (length row.old) from count row.new }
    ensures keeps { (b : ℕ) → b < 64 * length row.old → bit row.old b ≡ true → bit row.new b ≡ true }
    ensures takes { (b : ℕ) → b / 64 ≡ at → bit direct.now b ≡ true → bit row.new b ≡ true }
{
    let mut left = direct[at] & !row[at];
    'bits: while left != 0 {
        let place = at * 64 + left.trailing_zeros() as usize;
        take_row(row, table, (place - from) * row.len(), place);
        left &= !row[at];
    }
}

// Adds to an empty row the numbers of `direct` and those of their rows.
fn close_row(row: &mut [u64], direct: &[u64], table: &[u64], from: usize, count: usize)
    requires few { length row.old ≤ 2 ^ 26 }
    requires direct { length direct.now ≡ length row.old }
    requires rows { ClosedRows table.now (length row.old) from count }
    requires above { (b : ℕ) → b < 64 * length row.old → bit direct.now b ≡ true → (from ≤ b) × (b < count) }
    requires empty { (b : ℕ) → b < 64 * length row.old → bit row.old b ≡ false }
    ensures length { length row.new ≡ length row.old }
    ensures bits { (b : ℕ) → b < 64 * length row.old → (bit row.new b ≡ true) ↔ Reaches direct.now table.now (length row.old) from b }
{
    'words: for at in from / 64..row.len() {
        take_word(row, direct, table, from, count, at);
    }
}

fn clear(row: &mut [u64])
    ensures length { length row.new ≡ length row.old }
    ensures zeros { (k : ℕ) → k < length row.old → get_or row.new k 0 ≡ 0 }
{
    for word in row.iter_mut() {
        *word = 0;
    }
}

// Closes the first row of `rows`, which are those of the numbers from `from` on; the others are closed.
fn close_first(rows: &mut [u64], scratch: &mut [u64], width: usize, from: usize, count: usize)
    requires few { width ≤ 2 ^ 26 }
    requires from { from < count }
    requires size { length rows.old ≡ width + (count - (from + 1)) * width }
    requires scratch { length scratch.old ≡ width }
    requires rest { ClosedRows (drop width rows.old) width (from + 1) count }
    requires forward { (y : ℕ) → y < 64 * width → bit rows.old y ≡ true → (from + 1 ≤ y) × (y < count) }
    ensures length { length rows.new ≡ length rows.old }
    ensures scratch { length scratch.new ≡ width }
    ensures closed { FirstClosed rows.old rows.new width from count }
{
    let (row, table) = rows.split_at_mut(width);
    scratch.copy_from_slice(row);
    clear(row);
    close_row(row, scratch, table, from + 1, count);
}

fn close_all(words: &mut [u64], scratch: &mut [u64], width: usize, count: usize)
    requires few { width ≤ 2 ^ 26 }
    requires count { count ≤ 64 * width }
    requires size { length words.old ≡ count * width }
    requires scratch { length scratch.old ≡ width }
    requires ahead { Ahead words.old width count }
    ensures length { length words.new ≡ length words.old }
    ensures scratch { length scratch.new ≡ width }
    ensures ahead { Ahead words.new width count }
    ensures paths { (x y : ℕ) → x < count → y < count → (bit words.new (x * width * 64 + y) ≡ true) ↔ Path (pairs_of words.old width count) x y }
{
    for i in 0..count {
        let from = count - 1 - i;
        let (_below, rest) = words.split_at_mut(from * width);
        close_first(rest, scratch, width, from, count);
    }
}

/// Leaves exactly the pairs that a path of old pairs joins.
pub(crate) fn close_words(words: &mut Vec<u64>, scratch: &mut Vec<u64>, width: usize, count: usize)
    requires few { width ≤ 2 ^ 26 }
    requires count { count ≤ 64 * width }
    requires size { length words.old.items ≡ count * width }
    requires scratch { length scratch.old.items ≡ width }
    requires ahead { Ahead words.old.items width count }
    ensures length { length words.new.items ≡ length words.old.items }
    ensures scratch { length scratch.new.items ≡ width }
    ensures ahead { Ahead words.new.items width count }
    ensures paths { (x y : ℕ) → x < count → y < count → (bit words.new.items (x * width * 64 + y) ≡ true) ↔ Path (pairs_of words.old.items width count) x y }
{
    close_all(words, scratch, width, count);
}
