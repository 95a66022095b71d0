//! The members of an object that is written, put in one by one.

ghost use Rattle.std.specs.Prelude.{◌≡◌, IfOk};
ghost use Rattle.serde_json.specs.Data.{put, string};
ghost use Rattle.serde_json.specs.View.{view, members_view};

use crate::Writer;
use serde_json::{Map, Value};
use std::alloc::{AllocError, Global};

/// The members of an object.
pub type Members = Map<String, Value>;

/// The members with one more, or with another value of that name.
pub fn with_member(
    alloc: Global,
    mut members: Members,
    name: &str,
    value: Value,
) -> Result<Members, AllocError>
    ensures { IfOk result (λ more. members_view more.entries ≡ put name.now (view value) (members_view members.entries)) }
{
    members.insert(String::from_str(alloc, name)?, value)?;
    Ok(members)
}

/// The members with one more, which stands in the form `F`.
pub fn with_form<F: Writer>(
    alloc: Global,
    members: Members,
    name: &str,
    value: &F::In,
) -> Result<Members, AllocError>
    ensures { IfOk result (λ more. members_view more.entries ≡ put name.now (F.writes value.now) (members_view members.entries)) }
{
    let value = F::write(alloc, value)?;
    with_member(alloc, members, name, value)
}

/// The members with a text more.
pub fn with_text(
    alloc: Global,
    members: Members,
    name: &str,
    text: &str,
) -> Result<Members, AllocError>
    ensures { IfOk result (λ more. members_view more.entries ≡ put name.now (string text.now) (members_view members.entries)) }
{
    let value = Value::try_from_str(alloc, text)?;
    with_member(alloc, members, name, value)
}
