//! What a frame costs before and after its queues are chosen.

ghost use Rattle.std.specs.Prelude.{◌≡◌, IfOk};
ghost use Rattle.report_json.specs.Costs.{cost_json};

use crate::object::{end_object, first_number, next_number};
use base::{List, NoMemory, Text};
use std::alloc::Global;

/// The object that `auto --cost --json` prints: the cost of a frame as given, and with the queues that were found.
pub(crate) fn cost_json(alloc: Global, given: u64, found: u64) -> Result<Text, NoMemory>
    ensures { IfOk result (λ text. text ≡ cost_json given found) }
{
    let mut text = List::new(alloc);
    first_number(&mut text, b"given", given)?;
    next_number(&mut text, b"chosen", found)?;
    end_object(&mut text)?;
    Ok(text)
}
