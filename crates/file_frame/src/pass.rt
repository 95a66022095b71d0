//! Passes in a file.

ghost use Rattle.file_frame.specs.Passes.{pass_at, pass_data, FitsPass};

use crate::flag::FlagForm;
use crate::spot::SpotForm;
use crate::write::WriteForm;
use base::List;
use file_json::{
    ListForm, Location, NameForm, ReadError, Reader, Writer, object, optional, others, required,
    with_form, with_member,
};
use file_ops::OpForm;
use frame::Pass;
use serde_json::{Map, Value};
use std::alloc::{AllocError, Global};

/// An entry of `passes`.
pub struct PassForm<const FORMAT: u32>;

impl<const FORMAT: u32> Reader for PassForm<FORMAT> {
    type Out = Pass;

    ghost reads = { pass_at FORMAT };

    ghost Fits = { FitsPass };

    #[tactic(auto, unfolding(crate::specs::Passes::pass_at))]
    fn read(alloc: Global, at: &Location<'_>, value: &Value) -> Result<Pass, ReadError> {
        object(alloc, at, value)?;
        let name = required::<NameForm>(alloc, at, "name", value)?;
        let queue = required::<NameForm>(alloc, at, "queue", value)?;
        let reads = optional::<ListForm<SpotForm<FORMAT>>>(alloc, at, "reads", value)?;
        let writes = optional::<ListForm<WriteForm<FORMAT>>>(alloc, at, "writes", value)?;
        let ops = optional::<ListForm<OpForm<SpotForm<FORMAT>>>>(alloc, at, "ops", value)?;
        let side_effect = optional::<FlagForm>(alloc, at, "side_effect", value)?;
        others(
            alloc,
            at,
            &["name", "queue", "reads", "writes", "ops", "side_effect"],
            value,
        )?;
        Ok(Pass {
            name,
            queue,
            reads: reads.unwrap_or(List::new(alloc)),
            writes: writes.unwrap_or(List::new(alloc)),
            ops: ops.unwrap_or(List::new(alloc)),
            side_effect: side_effect.unwrap_or(false),
        })
    }
}

impl<const FORMAT: u32> Writer for PassForm<FORMAT> {
    type In = Pass;

    ghost writes = { pass_data };

    fn write(alloc: Global, pass: &Pass) -> Result<Value, AllocError> {
        let members = with_form::<NameForm>(alloc, Map::new(alloc), "name", &pass.name)?;
        let members = with_form::<ListForm<OpForm<SpotForm<FORMAT>>>>(
            alloc, members, "ops", &pass.ops,
        )?;
        let members = with_form::<NameForm>(alloc, members, "queue", &pass.queue)?;
        let members = with_form::<ListForm<SpotForm<FORMAT>>>(
            alloc,
            members,
            "reads",
            &pass.reads,
        )?;
        let members = with_member(alloc, members, "side_effect", Value::Bool(pass.side_effect))?;
        let members = with_form::<ListForm<WriteForm<FORMAT>>>(
            alloc,
            members,
            "writes",
            &pass.writes,
        )?;
        Ok(Value::Object(members))
    }
}
