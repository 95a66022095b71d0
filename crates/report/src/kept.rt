//! Which passes are kept and which are culled.

ghost use Rattle.std.specs.Prelude.{◌≡◌, ◌≤◌, ◌++◌, OnOk, IfOk, length};
ghost use Rattle.report.specs.KeptLines.{kept_line, pass_line, state_of, pass_lines, listed, run_text, cull_text};

use base::{List, NoMemory, Text};
use base_text::Lines;
use frame::{Pass, ValidFrame};
use frame_cull::Kept;
use std::alloc::Global;

/// Which passes have a line.
#[derive(Clone, Copy)]
enum Listing {
    Culled,
    Each,
}

fn add_counts(text: &mut Text, kept: &Kept, passes: usize) -> Result<(), NoMemory>
    requires { passes ≡ length kept.now }
    ensures { OnOk result (text.new ≡ text.old ++ kept_line kept.now) }
{
    let count = kept.count();
    text.word(b"kept ")?;
    text.number(count as u64)?;
    text.word(b" culled ")?;
    text.number((passes - count) as u64)?;
    text.end_line()
}

fn state_of(kept: bool) -> &'static [u8]
    ensures { result.now ≡ state_of kept }
{
    if kept { b" kept\n" } else { b" culled\n" }
}

fn add_pass(text: &mut Text, listing: Listing, pass: &Pass, kept: bool) -> Result<(), NoMemory>
    ensures { OnOk result (text.new ≡ text.old ++ pass_line listing pass.now kept) }
{
    match listing {
        Listing::Culled => {
            if kept {
                return Ok(());
            }
            text.word(b"culled ")?;
            text.word(pass.name.as_bytes())?;
            text.end_line()
        }
        Listing::Each => {
            text.word(b"pass ")?;
            text.word(pass.name.as_bytes())?;
            text.word(state_of(kept))
        }
    }
}

fn add_passes(
    text: &mut Text,
    listing: Listing,
    passes: &[Pass],
    kept: &Kept,
) -> Result<(), NoMemory>
    requires few { length passes.now ≤ 256 }
    requires all { length kept.now ≡ length passes.now }
    ensures { OnOk result (text.new ≡ text.old ++ pass_lines listing kept.now 0 passes.now) }
{
    for (p, pass) in passes.iter().enumerate() {
        add_pass(text, listing, pass, kept.contains(p as u32))?;
    }
    Ok(())
}

#[tactic(auto, using(crate::proofs::Passes::few))]
fn listed(
    alloc: Global,
    listing: Listing,
    frame: &ValidFrame,
    kept: &Kept,
) -> Result<Text, NoMemory>
    requires { length kept.now ≡ length frame.now.passes }
    ensures { IfOk result (λ text. text ≡ listed listing frame.now kept.now) }
{
    let passes = &frame.frame().passes;
    let mut text = List::new(alloc);
    add_counts(&mut text, kept, passes.len())?;
    add_passes(&mut text, listing, passes, kept)?;
    Ok(text)
}

/// The lines that `run` prints before the exports: how many passes are kept and culled, and the culled ones by name.
pub fn run_text(alloc: Global, frame: &ValidFrame, kept: &Kept) -> Result<Text, NoMemory>
    requires { length kept.now ≡ length frame.now.passes }
    ensures { IfOk result (λ text. text ≡ run_text frame.now kept.now) }
{
    listed(alloc, Listing::Culled, frame, kept)
}

/// The lines that `cull` prints: how many passes are kept and culled, and what becomes of each.
pub fn cull_text(alloc: Global, frame: &ValidFrame, kept: &Kept) -> Result<Text, NoMemory>
    requires { length kept.now ≡ length frame.now.passes }
    ensures { IfOk result (λ text. text ≡ cull_text frame.now kept.now) }
{
    listed(alloc, Listing::Each, frame, kept)
}
