//! The program that a JSON value is.

ghost use Rattle.std.specs.Prelude.{IfOk};
ghost use Rattle.file_json.specs.Locations.{legs};
ghost use Rattle.file_json.specs.Reading.{Gives};
ghost use Rattle.file_program.specs.Programs.{parts_at, program_at, program_data, FitsProgram};
ghost use Rattle.serde_json.specs.View.{view};

use crate::entry::PiecesForm;
use crate::memory::MemoryForm;
use crate::piece::PieceForm;
use crate::queue::QueueForm;
use file_json::{
    ListForm, Location, NumberForm, RangeForm, ReadError, Reader, Writer, object, others, required,
    with_form, with_member,
};
use program::Program;
use serde_json::{Map, Value};
use std::alloc::{AllocError, Global};

/// A whole submission file.
pub struct ProgramForm;

// The members after `format`, in a file of this format.
#[tactic(auto, unfolding(crate::specs::Programs::parts_at))]
fn parts<const FORMAT: u32>(
    alloc: Global,
    at: &Location<'_>,
    json: &Value,
) -> Result<Program, ReadError>
    ensures gives { Gives result (parts_at FORMAT (legs at.now) (view json.now)) }
    ensures fits { IfOk result FitsProgram }
{
    let memories = required::<ListForm<MemoryForm>>(alloc, at, "memories", json)?;
    let pieces = required::<PiecesForm<FORMAT>>(alloc, at, "pieces", json)?;
    let queues = required::<ListForm<QueueForm>>(alloc, at, "queues", json)?;
    let readbacks = required::<ListForm<NumberForm>>(alloc, at, "readbacks", json)?;
    others(
        alloc,
        at,
        &["format", "memories", "pieces", "queues", "readbacks"],
        json,
    )?;
    Ok(Program {
        memories,
        pieces,
        queues,
        readbacks,
    })
}

impl Reader for ProgramForm {
    type Out = Program;

    ghost reads = { program_at };

    ghost Fits = { FitsProgram };

    #[tactic(auto, unfolding(crate::specs::Programs::program_at))]
    fn read(alloc: Global, at: &Location<'_>, json: &Value) -> Result<Program, ReadError> {
        object(alloc, at, json)?;
        let format = required::<RangeForm<1, 2>>(alloc, at, "format", json)?;
        if format == 1 {
            parts::<1>(alloc, at, json)
        } else {
            parts::<2>(alloc, at, json)
        }
    }
}

impl Writer for ProgramForm {
    type In = Program;

    ghost writes = { program_data };

    fn write(alloc: Global, program: &Program) -> Result<Value, AllocError> {
        let members = with_member(alloc, Map::new(alloc), "format", Value::from(2u32))?;
        let members = with_form::<ListForm<MemoryForm>>(
            alloc,
            members,
            "memories",
            &program.memories,
        )?;
        let members = with_form::<ListForm<PieceForm>>(alloc, members, "pieces", &program.pieces)?;
        let members = with_form::<ListForm<QueueForm>>(alloc, members, "queues", &program.queues)?;
        let members = with_form::<ListForm<NumberForm>>(
            alloc,
            members,
            "readbacks",
            &program.readbacks,
        )?;
        Ok(Value::Object(members))
    }
}
