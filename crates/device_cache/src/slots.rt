//! Slots of bytes.

ghost use Rattle.std.specs.Prelude.{◌≡◌, ◌≢◌, ◌<◌, ◌≤◌, ◌+◌, ◌^◌, ◌++◌, ◌∷◌, [], ℕ, length, IfSome, vec_len, vec_capacity};
ghost use Rattle.device_cache.specs.Internal.Uses.{count_at, Counts, IsFree};
ghost use Rattle.device_cache.specs.Tables.{slot_at};

use crate::contents::Contents;
use base::NoMemory;
use bytes::BytesMut;

// Less memory than this is had anew as quickly as it is found.
const LEAST: usize = 4096;

// How much memory the slots that no part names keep.
const SPARE: usize = 1 << 26;

// The least slot after slot 0 that no part names and whose memory is not worth keeping.
fn idle_slot(slots: &[Contents], counts: &[u32]) -> Option<usize>
    requires { length counts.now ≡ length slots.now }
    ensures { IfSome result (IsFree counts.now slots.now) }
{
    for slot in 1..slots.len() {
        if counts[slot] == 0 && !slots[slot].has_memory(LEAST) {
            return Some(slot);
        }
    }
    None
}

// The least slot after slot 0 that no part names and whose memory is more than those before it left to keep.
fn surplus_slot(slots: &[Contents], counts: &[u32]) -> Option<usize>
    requires { length counts.now ≡ length slots.now }
    ensures { IfSome result (IsFree counts.now slots.now) }
{
    let mut left = SPARE;
    for slot in 1..slots.len() {
        if counts[slot] == 0 {
            match left.checked_sub(slots[slot].len()) {
                Some(less) => left = less,
                None => return Some(slot),
            }
        }
    }
    None
}

// A slot that no part names: one whose memory is not worth keeping, or is more than is kept.
fn free_slot(slots: &[Contents], counts: &[u32]) -> Option<usize>
    requires { length counts.now ≡ length slots.now }
    ensures { IfSome result (IsFree counts.now slots.now) }
{
    match idle_slot(slots, counts) {
        Some(slot) => Some(slot),
        None => surplus_slot(slots, counts),
    }
}

/// The least slot after slot 0 that no part names and whose memory, for just so many bytes, nobody shares, if this is worth a
/// search.
pub(crate) fn spare_slot(slots: &[Contents], counts: &[u32], len: usize) -> Option<usize>
    requires { length counts.now ≡ length slots.now }
    ensures { IfSome result (IsFree counts.now slots.now) }
{
    if len < LEAST {
        return None;
    }
    for slot in 1..slots.len() {
        if counts[slot] == 0 && slots[slot].is_spare(len) {
            return Some(slot);
        }
    }
    None
}

/// What a slot had, where it is no one else's. The slot has no bytes from now on.
pub(crate) fn empty_slot(slots: &mut Vec<Contents>, slot: usize) -> Option<BytesMut>
    requires { slot < length slots.old.items }
    ensures others { (k : ℕ) → k < length slots.old.items → k ≢ slot → slot_at slots.new.items k ≡ slot_at slots.old.items k }
    ensures length { length slots.new.items ≡ length slots.old.items }
    ensures len { vec_len slots.new ≡ vec_len slots.old }
    ensures capacity { vec_capacity slots.new ≡ vec_capacity slots.old }
{
    let old = std::mem::replace(&mut slots[slot], Contents::filled(0, 0));
    old.into_spare()
}

/// Puts contents into a slot after slot 0 that no part names, in place of what it held, or into a new one.
pub(crate) fn store_in(slots: &mut Vec<Contents>, counts: &mut Vec<u32>, contents: Contents) -> u32
    requires counts { length counts.old.items ≡ length slots.old.items }
    requires some { 0 < length slots.old.items }
    requires few { length slots.old.items + 1 < 2 ^ 32 }
    requires room { vec_len slots.old < vec_capacity slots.old }
    requires counts_room { vec_len counts.old < vec_capacity counts.old }
    ensures slot { result < length slots.new.items }
    ensures later { 0 < result }
    ensures here { slot_at slots.new.items result ≡ contents }
    ensures others { (k : ℕ) → k < length slots.old.items → k ≢ result → slot_at slots.new.items k ≡ slot_at slots.old.items k }
    ensures unnamed { (f : ℕ → ℕ) → Counts counts.old.items f → f (length slots.old.items) ≡ 0 → f result ≡ 0 }
    ensures counts { length counts.new.items ≡ length slots.new.items }
    ensures counted { (f : ℕ → ℕ) → Counts counts.old.items f → f (length slots.old.items) ≡ 0 → Counts counts.new.items f }
    ensures longer { length slots.old.items ≤ length slots.new.items }
    ensures one { length slots.new.items ≤ length slots.old.items + 1 }
    ensures len { vec_len slots.new ≤ vec_len slots.old + 1 }
    ensures capacity { vec_capacity slots.new ≡ vec_capacity slots.old }
    ensures counts_len { vec_len counts.new ≤ vec_len counts.old + 1 }
    ensures counts_capacity { vec_capacity counts.new ≡ vec_capacity counts.old }
{
    match free_slot(slots, counts) {
        Some(slot) => {
            slots[slot] = contents;
            slot as u32
        }
        None => push_slot(slots, counts, contents),
    }
}

// Puts contents into a new slot.
fn push_slot(slots: &mut Vec<Contents>, counts: &mut Vec<u32>, contents: Contents) -> u32
    requires few { length slots.old.items < 2 ^ 32 }
    requires room { vec_len slots.old < vec_capacity slots.old }
    requires counts_room { vec_len counts.old < vec_capacity counts.old }
    ensures slot { result ≡ length slots.old.items }
    ensures items { slots.new.items ≡ slots.old.items ++ contents ∷ [] }
    ensures counts { counts.new.items ≡ counts.old.items ++ 0 ∷ [] }
    ensures len { vec_len slots.new ≡ vec_len slots.old + 1 }
    ensures capacity { vec_capacity slots.new ≡ vec_capacity slots.old }
    ensures counts_len { vec_len counts.new ≡ vec_len counts.old + 1 }
    ensures counts_capacity { vec_capacity counts.new ≡ vec_capacity counts.old }
{
    let slot = slots.len() as u32;
    slots.push_reserved(contents);
    counts.push_reserved(0);
    slot
}

// The bytes of the slot can be had without a copy, if there is such a slot.
fn share_slot(slots: &mut Vec<Contents>, slot: usize) -> Result<(), NoMemory>
    ensures items { slots.new.items ≡ slots.old.items }
    ensures len { vec_len slots.new ≡ vec_len slots.old }
    ensures capacity { vec_capacity slots.new ≡ vec_capacity slots.old }
{
    if slot < slots.len() {
        slots[slot].share()
    } else {
        Ok(())
    }
}

/// The bytes of the slots with these numbers can be had without a copy. A number is taken off as soon as this holds.
pub(crate) fn share_all(slots: &mut Vec<Contents>, numbers: &mut Vec<u32>) -> Result<(), NoMemory>
    ensures items { slots.new.items ≡ slots.old.items }
    ensures len { vec_len slots.new ≡ vec_len slots.old }
    ensures capacity { vec_capacity slots.new ≡ vec_capacity slots.old }
{
    for _number in 0..numbers.len() {
        if let Some(slot) = numbers.pop() {
            share_slot(slots, slot as usize)?;
        }
    }
    Ok(())
}
