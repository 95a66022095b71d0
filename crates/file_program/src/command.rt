//! Commands in a file: operations whose operands are the numbers of pieces, with the member `item` beside.

ghost use Rattle.std.specs.Prelude.{◌≡◌, ◌∷◌, codes, map, IfOk};
ghost use Rattle.file_json.specs.Locations.{legs};
ghost use Rattle.file_json.specs.Reading.{Gives};
ghost use Rattle.file_ops.specs.Kinds.{members_of};
ghost use Rattle.file_program.specs.Items.{command_at, command_data, FitsItem};
ghost use Rattle.serde_json.specs.View.{view};

use base::{NoMemory, Op};
use file_json::{Location, NumberForm, ReadError, Writer, others, with_text};
use file_ops::{Kind, OpForm, members, op_kind, parts};
use program::Item;
use serde_json::Value;
use std::alloc::{AllocError, Global};

fn known(alloc: Global, kind: Kind) -> Result<Vec<&'static str>, NoMemory>
    ensures { IfOk result (λ names. map (λ name. name.now) names.items ≡ codes "item" ∷ members_of kind) }
{
    let mut names = Vec::new(alloc);
    names.push("item")?;
    names.extend_from_slice(members(kind))?;
    Ok(names)
}

/// A command, whose `item` was examined before.
#[tactic(auto, unfolding(crate::specs::Items::command_at))]
pub fn read_command(alloc: Global, at: &Location<'_>, json: &Value) -> Result<Item, ReadError>
    ensures gives { Gives result (command_at (legs at.now) (view json.now)) }
    ensures fits { IfOk result FitsItem }
{
    let op = parts::<NumberForm>(alloc, at, json)?;
    let known = known(alloc, op_kind(&op))?;
    others(alloc, at, known.as_slice(), json)?;
    Ok(Item::Command(op))
}

/// A command with its word.
pub fn command_value(alloc: Global, op: &Op<u32>) -> Result<Value, AllocError>
    ensures { IfOk result (λ json. view json ≡ command_data op.now) }
{
    match OpForm::<NumberForm>::write(alloc, op)? {
        Value::Object(members) => {
            let members = with_text(alloc, members, "item", "command")?;
            Ok(Value::Object(members))
        }
        other => Ok(other),
    }
}
