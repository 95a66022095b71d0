//! A frame that was run, in numbers.

ghost use Rattle.std.specs.Prelude.{◌≡◌, ◌++◌, OnOk, IfOk};
ghost use Rattle.report.specs.Summaries.{passes_line, nodes_line, memory_line, exports_line, summary_text};

use base::{List, NoMemory, Text};
use base_text::Lines;
use std::alloc::Global;

fn add_passes(text: &mut Text, kept: u32, culled: u32) -> Result<(), NoMemory>
    ensures { OnOk result (text.new ≡ text.old ++ passes_line kept culled) }
{
    text.word(b"kept ")?;
    text.number(u64::from(kept))?;
    text.word(b" culled ")?;
    text.number(u64::from(culled))?;
    text.end_line()
}

fn add_nodes(text: &mut Text, nodes: u32) -> Result<(), NoMemory>
    ensures { OnOk result (text.new ≡ text.old ++ nodes_line nodes) }
{
    text.word(b"nodes ")?;
    text.number(u64::from(nodes))?;
    text.end_line()
}

fn add_memory(text: &mut Text, heap: u32, separate: u32) -> Result<(), NoMemory>
    ensures { OnOk result (text.new ≡ text.old ++ memory_line heap separate) }
{
    text.word(b"heap ")?;
    text.number(u64::from(heap))?;
    text.word(b" separate ")?;
    text.number(u64::from(separate))?;
    text.end_line()
}

fn add_exports(text: &mut Text, exports: u32, bytes: u32, sum: u64) -> Result<(), NoMemory>
    ensures { OnOk result (text.new ≡ text.old ++ exports_line exports bytes sum) }
{
    text.word(b"exports ")?;
    text.number(u64::from(exports))?;
    text.word(b" bytes ")?;
    text.number(u64::from(bytes))?;
    text.word(b" sum ")?;
    text.number(sum)?;
    text.end_line()
}

/// The summary of a frame that was run: its passes, the nodes of its program, the bytes of its heap beside what its
/// resources would take one by one, and its exports with the number of their bytes and the sum of these.
pub fn summary_text(
    alloc: Global,
    kept: u32,
    culled: u32,
    nodes: u32,
    heap: u32,
    separate: u32,
    exports: u32,
    bytes: u32,
    sum: u64,
) -> Result<Text, NoMemory>
    ensures { IfOk result (λ text. text ≡ summary_text kept culled nodes heap separate exports bytes sum) }
{
    let mut text = List::new(alloc);
    add_passes(&mut text, kept, culled)?;
    add_nodes(&mut text, nodes)?;
    add_memory(&mut text, heap, separate)?;
    add_exports(&mut text, exports, bytes, sum)?;
    Ok(text)
}
