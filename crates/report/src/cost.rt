//! What a frame costs before and after its queues are chosen.

ghost use Rattle.std.specs.Prelude.{◌≡◌, IfOk};
ghost use Rattle.report.specs.CostLines.{cost_text};

use base::{List, NoMemory, Text};
use base_text::Lines;
use std::alloc::Global;

/// The line of the cost of a frame as given and of the cost with the queues that were found, as `cost 4 2`.
pub fn cost_text(alloc: Global, given: u64, found: u64) -> Result<Text, NoMemory>
    ensures { IfOk result (λ text. text ≡ cost_text given found) }
{
    let mut text = List::new(alloc);
    text.word(b"cost ")?;
    text.number(given)?;
    text.word(b" ")?;
    text.number(found)?;
    text.end_line()?;
    Ok(text)
}
