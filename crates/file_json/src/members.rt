//! The members of an object.

ghost use Rattle.std.specs.Prelude.{◌≡◌, map, IfOk, IfSome};
ghost use Rattle.std.specs.List.{list_any};
ghost use Rattle.std.specs.Str.{bytes_eq};
ghost use Rattle.file_json.specs.Parts.{object_at, member_at, optional_at, others_at, unknown_in};
ghost use Rattle.file_json.specs.Locations.{legs};
ghost use Rattle.file_json.specs.Reading.{Gives};
ghost use Rattle.serde_json.specs.View.{view, members_view};

use crate::{Location, ReadError, Reader};
use serde_json::{Map, Value};
use std::alloc::Global;

/// Tests that a value is an object.
pub fn object(alloc: Global, at: &Location<'_>, value: &Value) -> Result<(), ReadError>
    ensures { Gives result (object_at (legs at.now) (view value.now)) }
{
    match value {
        Value::Object(_) => Ok(()),
        _ => Err(at.refused(alloc)),
    }
}

/// A member that must be there. An absent one is refused at its own path.
pub fn required<F: Reader>(
    alloc: Global,
    at: &Location<'_>,
    name: &str,
    value: &Value,
) -> Result<F::Out, ReadError>
    ensures gives { Gives result (member_at F.reads name.now (legs at.now) (view value.now)) }
    ensures fits { IfOk result F.Fits }
{
    let location = at.member(name);
    match value.get(name) {
        Some(part) => F::read(alloc, &location, part),
        None => Err(location.refused(alloc)),
    }
}

/// A member that may be there.
pub fn optional<F: Reader>(
    alloc: Global,
    at: &Location<'_>,
    name: &str,
    value: &Value,
) -> Result<Option<F::Out>, ReadError>
    ensures gives { Gives result (optional_at F.reads name.now (legs at.now) (view value.now)) }
    ensures fits { IfOk result (λ found. IfSome found F.Fits) }
{
    match value.get(name) {
        Some(part) => Ok(Some(F::read(alloc, &at.member(name), part)?)),
        None => Ok(None),
    }
}

/// Tests that an object has no members but those that are known. The first unknown one in byte order is refused at its
/// path. A value that is no object passes: `object` tests that.
pub fn others(
    alloc: Global,
    at: &Location<'_>,
    known: &[&str],
    value: &Value,
) -> Result<(), ReadError>
    ensures { Gives result (others_at (map (λ name. name.now) known.now) (legs at.now) (view value.now)) }
{
    match value {
        Value::Object(members) => unknown(alloc, at, known, members),
        _ => Ok(()),
    }
}

fn is_known(known: &[&str], name: &str) -> bool
    ensures { result ≡ list_any (λ k. bytes_eq k.now name.now) known.now }
{
    known.iter().any(|k| *k == name)
}

fn unknown(
    alloc: Global,
    at: &Location<'_>,
    known: &[&str],
    members: &Map<String, Value>,
) -> Result<(), ReadError>
    ensures { Gives result (unknown_in (map (λ name. name.now) known.now) (legs at.now) (members_view members.now.entries)) }
{
    for (name, _) in members {
        if !is_known(known, name.as_str()) {
            return Err((&*at).member(name.as_str()).refused(alloc));
        }
    }
    Ok(())
}
