//! Faults of files.

ghost use Rattle.std.specs.Prelude.{◌≡◌, ◌++◌, OnOk, IfOk};
ghost use Rattle.report.specs.Faults.{limit_text, fault_text, frame_fault_text, program_fault_text};

use crate::path::add_path;
use base::{Leg, Limit, List, NoMemory, Text};
use base_text::Lines;
use frame::FrameFault;
use program::ProgramFault;
use std::alloc::Global;

fn add_limit(text: &mut Text, limit: Option<Limit>) -> Result<(), NoMemory>
    ensures { OnOk result (text.new ≡ text.old ++ limit_text limit) }
{
    match limit {
        Some(limit) => {
            text.word(b" ")?;
            text.word(limit.name().as_bytes())
        }
        None => Ok(()),
    }
}

// The line of a fault with this letter and number.
fn add_fault(
    text: &mut Text,
    letter: &[u8],
    number: u8,
    limit: Option<Limit>,
    location: &[Leg],
) -> Result<(), NoMemory>
    ensures { OnOk result (text.new ≡ text.old ++ fault_text letter.now number limit location.now) }
{
    text.word(b"fault ")?;
    text.word(letter)?;
    text.number(u64::from(number))?;
    add_limit(text, limit)?;
    text.word(b" ")?;
    add_path(text, location)?;
    text.end_line()
}

/// The line that names the first fault of a frame file, as `fault F7 $.passes[0].ops[0].op`.
pub fn frame_fault_text(alloc: Global, fault: &FrameFault) -> Result<Text, NoMemory>
    ensures { IfOk result (λ text. text ≡ frame_fault_text fault.now) }
{
    let mut text = List::new(alloc);
    add_fault(&mut text, b"F", fault.number, fault.limit, &fault.location)?;
    Ok(text)
}

/// The line that names the first fault of a submission file, as `fault G9 $.queues[0].batches[1].signal`.
pub fn program_fault_text(alloc: Global, fault: &ProgramFault) -> Result<Text, NoMemory>
    ensures { IfOk result (λ text. text ≡ program_fault_text fault.now) }
{
    let mut text = List::new(alloc);
    add_fault(&mut text, b"G", fault.number, fault.limit, &fault.location)?;
    Ok(text)
}
