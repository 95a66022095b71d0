//! Lists of values of one form.

ghost use Rattle.std.specs.Prelude.{IfOk};
ghost use Rattle.std.specs.List.{AllByRecursion};
ghost use Rattle.file_json.specs.Parts.{list_at, entries_at, array_of};
ghost use Rattle.file_json.specs.Locations.{legs};
ghost use Rattle.file_json.specs.Reading.{Gives};
ghost use Rattle.serde_json.specs.View.{items_view};

use crate::{Location, ReadError, Reader, Typed, Writer};
use base::List;
use serde_json::Value;
use std::alloc::{AllocError, Global};
use std::marker::PhantomData;

/// A list whose entries have the form `F`.
pub struct ListForm<F> {
    form: PhantomData<F>,
}

impl<F: Reader> Reader for ListForm<F> {
    type Out = List<F::Out>;

    ghost reads = { list_at F.reads };

    ghost Fits = { AllByRecursion F.Fits };

    fn read(alloc: Global, at: &Location<'_>, value: &Value) -> Result<List<F::Out>, ReadError> {
        match value {
            Value::Array(values) => entries::<F>(alloc, at, values.as_slice()),
            _ => Err(at.refused(alloc)),
        }
    }
}

fn entries<F: Reader>(
    alloc: Global,
    at: &Location<'_>,
    values: &[Value],
) -> Result<List<F::Out>, ReadError>
    ensures gives { Gives result (entries_at F.reads (legs at.now) 0 (items_view values.now)) }
    ensures fits { IfOk result (AllByRecursion F.Fits) }
{
    let mut found = List::new(alloc);
    for (i, value) in values.iter().enumerate() {
        // A path names no greater position.
        let Ok(position) = u32::try_from(i) else {
            return Err(ReadError::NoMemory);
        };
        let entry = F::read(alloc, &(&*at).entry(position), value)?;
        found.push(entry)?;
    }
    Ok(found)
}

impl<F: Writer> Writer for ListForm<F> {
    type In = List<F::In>;

    ghost writes = { array_of F.writes };

    fn write(alloc: Global, list: &List<F::In>) -> Result<Value, AllocError> {
        let mut values = Vec::new(alloc);
        let entries = list.as_slice();
        for entry in entries {
            values.push(F::write(alloc, entry)?)?;
        }
        Ok(Value::Array(values))
    }
}

impl<F: Typed> Typed for ListForm<F> {
    type Of = List<F::Of>;

    ghost Says = { AllByRecursion F.Says };

    fn look(list: &List<F::Of>) {
        let entries = list.as_slice();
        for entry in entries {
            F::look(entry);
        }
    }
}
