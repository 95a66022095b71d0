//! Names under which bytes persist from one frame to the next.

ghost use Rattle.std.specs.Prelude.{◌≡◌, ◌==◌, IfOk, map, option_map};
ghost use Rattle.std.specs.List.{slice_split};
ghost use Rattle.cli.specs.Persist.{all_named, are_different, if_different, names_of, persist_in};

use base::{List, Name, NoMemory};
use frame::first_repeat;
use std::alloc::{AllocError, Global};

fn split_at_commas<'a>(alloc: Global, text: &'a str) -> Result<Vec<&'a str>, AllocError>
    ensures { IfOk result (λ entries. map (λ part. part.now) entries.items ≡ slice_split (λ b. b == 44) text.entry.now) }
{
    text.split(',').collect(alloc)
}

// The names that these are; none at all where one is none.
fn all_named(alloc: Global, entries: &[&str]) -> Result<Option<List<Name>>, NoMemory>
    ensures { IfOk result (λ names. names ≡ all_named (map (λ part. part.now) entries.now)) }
{
    let mut names = List::new(alloc);
    for part in entries {
        match Name::read(part.as_bytes()) {
            Some(name) => names.push(name)?,
            None => return Ok(None),
        }
    }
    Ok(Some(names))
}

fn are_different(alloc: Global, names: &[Name]) -> Result<bool, NoMemory>
    ensures { IfOk result (λ different. different ≡ are_different names.now) }
{
    if names.len() <= 16 {
        Ok(first_repeat(alloc, names)?.is_none())
    } else {
        Ok(false)
    }
}

fn if_different(alloc: Global, names: Option<List<Name>>) -> Result<Option<List<Name>>, NoMemory>
    ensures { IfOk result (λ different. different ≡ if_different names) }
{
    let Some(names) = names else {
        return Ok(None);
    };
    if are_different(alloc, &names)? {
        Ok(Some(names))
    } else {
        Ok(None)
    }
}

fn names_of(alloc: Global, text: &str) -> Result<Option<List<Name>>, NoMemory>
    ensures { IfOk result (λ names. names ≡ names_of text.now) }
{
    let entries = split_at_commas(alloc, text)?;
    let names = all_named(alloc, entries.as_slice())?;
    if_different(alloc, names)
}

/// The names of a word; no names where there is no word, and none at all where the word is not 1 to 16 different names with a comma
/// between.
pub(crate) fn persist_in(alloc: Global, word: Option<&str>) -> Result<Option<List<Name>>, NoMemory>
    ensures { IfOk result (λ names. names ≡ persist_in (option_map (λ w. w.now) word.entry)) }
{
    match word {
        Some(text) => names_of(alloc, text),
        None => Ok(Some(List::new(alloc))),
    }
}
