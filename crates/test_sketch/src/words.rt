//! Words, and what their parts stand for.

ghost use Rattle.std.specs.Prelude.{◌≡◌, IfOk};
ghost use Rattle.base.specs.Families.{family_name};

use base::{Family, NoMemory, Texel};
use vk::{Accesses, Layout, Layouts, Masks, Stages};

/// Why a line is no sketch.
#[derive(Clone, Copy, Debug, PartialEq, Eq)]
pub enum SketchError {
    /// A word has not the form that its verb wants.
    Word,
    NoMemory,
}

impl From<NoMemory> for SketchError {
    fn from(_: NoMemory) -> SketchError {
        SketchError::NoMemory
    }
}

/// A word: a verb and its arguments, between colons.
#[derive(Clone, Copy)]
pub struct Word<'a> {
    text: &'a str,
}

impl<'a> Word<'a> {
    pub fn new(text: &'a str) -> Word<'a> {
        Word { text }
    }

    /// The part with the number `at`; the verb has the number 0.
    pub fn part(self, at: usize) -> Result<&'a str, SketchError> {
        self.text.split(':').nth(at).ok_or(SketchError::Word)
    }

    pub fn verb(self) -> &'a str {
        self.part(0).unwrap_or("")
    }

    pub fn number(self, at: usize) -> Result<u32, SketchError> {
        self.part(at)?.parse().map_err(|_| SketchError::Word)
    }

    pub fn value(self, at: usize) -> Result<u64, SketchError> {
        self.part(at)?.parse().map_err(|_| SketchError::Word)
    }
}

fn pair(text: &str) -> Result<(&str, &str), SketchError> {
    text.split_once('>').ok_or(SketchError::Word)
}

pub fn family(text: &str) -> Result<Family, SketchError>
    ensures { IfOk result (λ family. text.now ≡ family_name family) }
{
    if text == Family::Graphics.name() {
        Ok(Family::Graphics)
    } else if text == Family::Compute.name() {
        Ok(Family::Compute)
    } else if text == Family::Transfer.name() {
        Ok(Family::Transfer)
    } else {
        Err(SketchError::Word)
    }
}

/// Two families, as in `graphics>transfer`.
pub fn families(text: &str) -> Result<(Family, Family), SketchError> {
    let (from, to) = pair(text)?;
    Ok((family(from)?, family(to)?))
}

pub fn texel(text: &str) -> Result<Texel, SketchError> {
    match text {
        "r8" => Ok(Texel::R8),
        "r32" => Ok(Texel::R32),
        _ => Err(SketchError::Word),
    }
}

fn layout(text: &str) -> Result<Layout, SketchError> {
    Layout::read(text.as_bytes()).ok_or(SketchError::Word)
}

/// Two layouts, as in `UNDEFINED>GENERAL`.
pub fn layouts(text: &str) -> Result<Layouts, SketchError> {
    let (from, to) = pair(text)?;
    Ok(Layouts {
        from: layout(from)?,
        to: layout(to)?,
    })
}

/// A mask of stages, as a file has it.
pub fn stages(text: &str) -> Result<Stages, SketchError> {
    Stages::read(text.as_bytes()).ok_or(SketchError::Word)
}

fn scope(text: &str) -> Result<(Stages, Accesses), SketchError> {
    let (of_stages, of_accesses) = text.split_once(',').unwrap_or((text, ""));
    let accesses = Accesses::read(of_accesses.as_bytes()).ok_or(SketchError::Word)?;
    Ok((stages(of_stages)?, accesses))
}

/// The masks of a barrier: source stages, a comma and accesses, and then those of its destination, as in
/// `CLEAR,TRANSFER_WRITE>COPY,TRANSFER_READ`.
pub fn masks(text: &str) -> Result<Masks, SketchError> {
    let (src, dst) = pair(text)?;
    let (src_stages, src_accesses) = scope(src)?;
    let (dst_stages, dst_accesses) = scope(dst)?;
    Ok(Masks {
        src_stages,
        src_accesses,
        dst_stages,
        dst_accesses,
    })
}
