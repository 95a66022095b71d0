//! Bytes in the form in which they are kept.

ghost use Rattle.std.specs.Prelude.{◌≡◌, ◌<◌, ◌≤◌, ◌+◌, ◌*◌, ◌^◌, ℕ, [], length, replicate, slice_index, slice_range, IfSome, IfOk, OnOk};
ghost use Rattle.device_cache.specs.Internal.Contents.{bytes_of};
ghost use Rattle.device_cache.specs.Repeats.{byte_of, repeated};

use base::NoMemory;
use bytes::{Bytes, BytesMut};
use std::alloc::Global;
use std::marker::Model;

/// The forms in which bytes are kept.
#[derive(Drop)]
pub(crate) enum Form {
    Own(BytesMut),
    Shared(Bytes),
    // So many bytes, which are those of a word again and again.
    Repeated { word: u32, len: usize },
}

/// Bytes that do not change.
#[derive(Drop)]
pub struct Contents {
    form: Form,
}

impl Model for Contents {
    ghost use Rattle.std.specs.Prelude.{ℕ, List};
    ghost use Rattle.device_cache.specs.Internal.Contents.{bytes_of};

    ghost Value = { List ℕ };

    ghost view = { λ slot. bytes_of slot.form };
}

// The byte in a place.
#[inline(always)]
fn byte_at(word: u32, place: usize) -> u8
    ensures { result ≡ byte_of word place }
{
    (word >> (8 * (place % 4) as u32) & 0xff) as u8
}

// The bytes of a word again and again, from a place on.
#[tactic(auto, using(crate::proofs::Repeating::turned))]
fn repeat(word: u32, first: usize, out: &mut [u8])
    ensures { (k : ℕ) → k < length out.old → slice_index out.new k ≡ byte_of word (first + k) }
{
    let turn = first % 4;
    for k in 0..out.len() {
        out[k] = byte_at(word, turn + k % 4);
    }
}

// The bytes from a place on.
fn copy_from(bytes: &[u8], first: usize, out: &mut [u8])
    requires within { first + length out.old ≤ length bytes.now }
    ensures { (k : ℕ) → k < length out.old → slice_index out.new k ≡ slice_index bytes.now (first + k) }
{
    let len = out.len();
    out.copy_from_slice(&bytes[first..first + len]);
}

// The same from the first one on.
#[tactic(auto, using(crate::proofs::Repeating::repeats))]
fn repeat_all(word: u32, out: &mut [u8])
    ensures { out.new ≡ repeated word (length out.old) }
{
    repeat(word, 0, out);
}

// How many bytes are copied at once.
const STRIP: usize = 1024;

// Strips of those bytes, one behind the other.
#[tactic(auto, using(crate::proofs::Repeating::longer, crate::proofs::Repeating::none_repeated))]
fn append_strips(word: u32, strip: &[u8], count: usize, bytes: &mut Vec<u8>) -> Result<(), NoMemory>
    requires strip { strip.now ≡ repeated word STRIP }
    requires empty { bytes.old.items ≡ [] }
    ensures { OnOk result (bytes.new.items ≡ repeated word (count * STRIP)) }
{
    for _done in 0..count {
        bytes.extend_from_slice(strip)?;
    }
    Ok(())
}

// Those bytes in memory.
#[tactic(auto, using(crate::proofs::Repeating::longer, crate::proofs::Repeating::first_part, crate::proofs::Repeating::length_repeated))]
fn spelled(alloc: Global, word: u32, len: usize) -> Result<Bytes, NoMemory>
    ensures { IfOk result (λ bytes. bytes ≡ repeated word len) }
{
    let mut strip = [0; STRIP];
    repeat_all(word, &mut strip);
    let mut bytes = Vec::with_capacity(alloc, len)?;
    append_strips(word, &strip, len / STRIP, &mut bytes)?;
    bytes.extend_from_slice(&strip[..len % STRIP])?;
    Ok(Bytes::from_vec(bytes)?)
}

// Some of the bytes that are shared.
fn shared_part(bytes: &Bytes, first: usize, len: usize) -> Option<Contents>
    requires within { first + len ≤ length bytes.now }
    requires small { first + len < 2 ^ 63 }
    ensures { IfSome result (λ part. part ≡ slice_range bytes.now first (first + len)) }
{
    let part = bytes.slice(first..first + len).ok()?;
    Some(Contents::shared(part))
}

// So many bytes from a place on, where they begin as the word does.
#[tactic(auto, using(crate::proofs::Repeating::repeated_part))]
fn repeated_part(word: u32, all: usize, first: usize, len: usize) -> Option<Contents>
    requires { first + len ≤ all }
    ensures { IfSome result (λ part. part ≡ slice_range (repeated word all) first (first + len)) }
{
    if first % 4 == 0 {
        Some(Contents::repeated(word, len))
    } else {
        None
    }
}

// The same bytes in a form that can be shared, where there is memory for that.
fn shared(form: Form) -> (Form, Result<(), NoMemory>)
    ensures { bytes_of result.0 ≡ bytes_of form }
{
    match form {
        Form::Own(own) => match own.freeze() {
            Ok(bytes) => (Form::Shared(bytes), Ok(())),
            Err(failed) => (Form::Own(failed.value), Err(NoMemory)),
        },
        form => (form, Ok(())),
    }
}

impl Contents {
    /// Bytes of one's own. It takes no memory.
    pub fn own(bytes: BytesMut) -> Contents
        ensures { result ≡ bytes.items }
    {
        Contents {
            form: Form::Own(bytes),
        }
    }

    /// Bytes that others may share. It takes no memory.
    pub fn shared(bytes: Bytes) -> Contents
        ensures { result ≡ bytes }
    {
        Contents {
            form: Form::Shared(bytes),
        }
    }

    /// So many bytes, which are those of a word again and again, the lowest first. It takes no memory, for the bytes neither.
    pub fn repeated(word: u32, len: usize) -> Contents
        ensures { result ≡ repeated word len }
    {
        Contents {
            form: Form::Repeated { word, len },
        }
    }

    /// One byte, so many times. It takes no memory either.
    #[tactic(auto, using(crate::proofs::Repeating::one_byte))]
    pub fn filled(byte: u8, len: u32) -> Contents
        ensures { result ≡ replicate len byte }
    {
        Contents::repeated(u32::from(byte) * 0x0101_0101, len as usize)
    }

    /// The word whose bytes they are again and again, where they are kept in this form.
    #[tactic(auto, using(crate::proofs::Repeating::itself))]
    pub fn word(&self) -> Option<u32>
        ensures { IfSome result (λ word. self.now ≡ repeated word (length self.now)) }
    {
        match &self.form {
            Form::Repeated { word, .. } => Some(*word),
            _ => None,
        }
    }

    /// The bytes, where they are in memory.
    pub fn as_slice(&self) -> Option<&[u8]>
        ensures { IfSome result (λ bytes. bytes.now ≡ self.now) }
    {
        match &self.form {
            Form::Own(own) => Some(own.as_slice()),
            Form::Shared(bytes) => Some(bytes),
            Form::Repeated { .. } => None,
        }
    }

    /// The bytes in memory. They are copied only where nobody shares them, and those of a word are written out.
    pub fn to_bytes(&self, alloc: Global) -> Result<Bytes, NoMemory>
        ensures { IfOk result (λ bytes. bytes ≡ self.now) }
    {
        match &self.form {
            Form::Own(own) => Ok(Bytes::copy_from_slice(alloc, own.as_slice())?),
            Form::Shared(bytes) => Ok(bytes.clone()?),
            Form::Repeated { word, len } => spelled(alloc, *word, *len),
        }
    }

    /// The same bytes. They are copied only where nobody shares them.
    pub fn copy(&self, alloc: Global) -> Result<Contents, NoMemory>
        ensures { IfOk result (λ copy. copy ≡ self.now) }
    {
        if let Some(word) = self.word() {
            return Ok(Contents::repeated(word, self.len()));
        }
        Ok(Contents::shared(self.to_bytes(alloc)?))
    }

    /// Whether it has memory of its own for just so many bytes, which nobody shares.
    pub(crate) fn is_spare(&self, len: usize) -> bool {
        match &self.form {
            Form::Own(own) => own.len() == len,
            Form::Shared(bytes) => bytes.len() == len && bytes.is_unique(),
            Form::Repeated { .. } => false,
        }
    }

    /// Whether it has memory for at least so many bytes.
    pub(crate) fn has_memory(&self, least: usize) -> bool {
        match &self.form {
            Form::Own(own) => own.len() >= least,
            Form::Shared(bytes) => bytes.len() >= least,
            Form::Repeated { .. } => false,
        }
    }

    /// The bytes, where they are no one else's; what they are does not count.
    pub(crate) fn into_spare(self) -> Option<BytesMut> {
        let Contents { form } = self;
        match form {
            Form::Own(own) => Some(own),
            Form::Shared(bytes) => bytes.reclaim(),
            Form::Repeated { .. } => None,
        }
    }

    /// How many bytes there are.
    #[tactic(auto, using(crate::proofs::Repeating::length_repeated))]
    pub fn len(&self) -> usize
        ensures { result ≡ length self.now }
    {
        match &self.form {
            Form::Own(own) => own.len(),
            Form::Shared(bytes) => bytes.len(),
            Form::Repeated { len, .. } => *len,
        }
    }

    /// Copies the bytes from a place on.
    #[tactic(auto, using(crate::proofs::Repeating::length_repeated, crate::proofs::Repeating::repeated_at))]
    pub(crate) fn copy_to(&self, first: usize, out: &mut [u8])
        requires within { first + length out.old ≤ length self.now }
        ensures { (k : ℕ) → k < length out.old → slice_index out.new k ≡ slice_index self.now (first + k) }
    {
        match &self.form {
            Form::Own(own) => copy_from(own, first, out),
            Form::Shared(bytes) => copy_from(bytes, first, out),
            Form::Repeated { word, .. } => repeat(*word, first, out),
        }
    }

    /// The bytes from a place on, so many, where they can be had without a copy.
    #[tactic(auto, using(crate::proofs::Repeating::length_repeated))]
    pub(crate) fn part(&self, first: usize, len: usize) -> Option<Contents>
        requires within { first + len ≤ length self.now }
        requires small { first + len < 2 ^ 63 }
        ensures { IfSome result (λ bytes. bytes ≡ slice_range self.now first (first + len)) }
    {
        match &self.form {
            Form::Own(_) => None,
            Form::Shared(bytes) => shared_part(bytes, first, len),
            Form::Repeated { word, len: all } => repeated_part(*word, *all, first, len),
        }
    }

    /// From now on its bytes can be had without a copy. Where memory runs out nothing has changed.
    pub(crate) fn share(&mut self) -> Result<(), NoMemory>
        ensures { self.new ≡ self.old }
    {
        let (form, ended) = shared(std::mem::replace(
            &mut self.form,
            Form::Repeated { word: 0, len: 0 },
        ));
        self.form = form;
        ended
    }
}
