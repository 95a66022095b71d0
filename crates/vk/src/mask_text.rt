//! Masks as texts.

ghost use Rattle.std.specs.Prelude.{◌≡◌, ◌<◌, ◌+◌, ◌∷◌, [], IfSome, IfNone, length, take, drop, position, option_map, slice_get};
ghost use Rattle.std.specs.List.{slice_split};
ghost use Rattle.std.specs.Str.{bytes_eq};
ghost use Rattle.vk.specs.Sets.{has};
ghost use Rattle.vk.specs.Texts.{is_bar, bits_named, union_of, mask_of, names_of};

use bitflags::{Flag, Flags};

fn is_named<M: Flags>(flag: &Flag<M>, name: &[u8]) -> bool
    ensures { result ≡ bytes_eq flag.now.name.now name.now }
{
    flag.name().as_bytes() == name
}

fn set_of<M: Flags>(flag: &Flag<M>) -> M
    ensures { M.exact → M.set_of result ≡ M.set_of flag.now.value }
{
    M::from_bits_retain(flag.value().bits())
}

fn named<M: Flags>(name: &[u8]) -> Option<M>
    ensures { M.exact → option_map M.set_of result ≡ bits_named M.table name.now }
{
    for flag in M::flags() {
        if is_named(flag, name) {
            return Some(set_of(flag));
        }
    }
    None
}

fn bar_position(text: &[u8]) -> Option<usize>
    ensures { result ≡ position is_bar text.now }
{
    text.iter().position(|byte| *byte == b'|')
}

fn first_bar(text: &[u8]) -> Option<usize>
    ensures none { IfNone result (slice_split is_bar text.now ≡ text.now ∷ []) }
    ensures within { IfSome result (λ i. i < length text.now) }
    ensures some { IfSome result (λ i. slice_split is_bar text.now ≡ take i text.now ∷ slice_split is_bar (drop (i + 1) text.now)) }
{
    bar_position(text)
}

// The set with the bits of each name between the bars.
fn read_names<M: Flags>(text: &[u8], set: M) -> Option<M>
    ensures { M.exact → option_map M.set_of result ≡ union_of M.table (M.set_of set) (slice_split is_bar text.now) }
{
    match first_bar(text) {
        None => match named::<M>(text) {
            None => None,
            Some(last) => Some(set.union(last)),
        },
        Some(bar) => match named::<M>(&text[..bar]) {
            None => None,
            Some(first) => read_names(&text[bar + 1..], set.union(first)),
        },
    }
}

/// The set that a text stands for: names joined by bars, in any order; no bytes are the empty set.
pub(crate) fn read_mask<M: Flags>(text: &[u8]) -> Option<M>
    ensures { M.exact → option_map M.set_of result ≡ mask_of M.table text.now }
{
    if text.is_empty() {
        return Some(M::empty());
    }
    read_names(text, M::empty())
}

fn holds<M: Flags>(mask: &M, flag: &Flag<M>) -> bool
    ensures { M.exact → result ≡ has (M.set_of mask.now) (M.set_of flag.now.value) }
{
    mask.contains(set_of(flag))
}

/// The name with the number `k` among those of a set, in the order of their bits.
pub(crate) fn put_name<M: Flags>(mask: &M, k: u32) -> Option<&'static str>
    ensures { M.exact → option_map (λ name. name.now) result ≡ slice_get (names_of M.table (M.set_of mask.now)) k }
{
    let mut left = k;
    for flag in M::flags() {
        if holds(mask, flag) {
            if left == 0 {
                return Some(flag.name());
            }
            left -= 1;
        }
    }
    None
}
