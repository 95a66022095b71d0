//! Culling: passes from which nothing that is seen outside the frame is reached are left out.

ghost use Rattle.std.specs.Prelude.{◌≡◌, ◌<◌, ◌^◌, ℕ, length, IfOk, Some};
ghost use Rattle.std.specs.List.{All};
ghost use Rattle.frame.specs.Numbered.{numbered};
ghost use Rattle.frame_cull.specs.Internal.Roots.{effects, rooted, AreRoots};
ghost use Rattle.frame_cull.specs.Culled.{AreKept};
ghost use Rattle.frame_cull.specs.Versions.{row_of, latest_maker, numbers_of};

use crate::counts::{needed, positive};
use crate::{Kept, Versions};
use base::{List, NoMemory};
use frame::ValidFrame;
use std::alloc::Global;

// Which passes have a side effect.
fn effects(alloc: Global, frame: &ValidFrame) -> Result<List<bool>, NoMemory>
    ensures effects { IfOk result (λ roots. roots ≡ effects (numbered frame.now)) }
    ensures few { IfOk result (λ roots. length roots < 2 ^ 32) }
{
    let mut roots = List::new(alloc);
    for pass in 0..frame.pass_count() {
        roots.push(frame.has_side_effect(pass))?;
    }
    Ok(roots)
}

// Makes the writers of the last versions of these units roots too.
fn root(roots: &mut List<bool>, versions: &Versions, units: &[u32])
    requires within { All (λ unit. unit < length versions.now.makers) units.now }
    requires makers { All (λ unit. (p : ℕ) → latest_maker (row_of versions.now.makers unit) ≡ Some p → p < length roots.old) units.now }
    ensures { roots.new ≡ rooted versions.now.makers units.now roots.old }
{
    for unit in units {
        if let Some(pass) = versions.last_writer(*unit) {
            roots.set(pass as usize, true);
        }
    }
}

// Which passes matter by themselves: they have a side effect, or write what is exported.
fn roots(alloc: Global, frame: &ValidFrame, versions: &Versions) -> Result<List<bool>, NoMemory>
    requires { versions.now ≡ numbers_of (numbered frame.now) }
    ensures few { IfOk result (λ roots. length roots < 2 ^ 32) }
    ensures roots { IfOk result (λ roots. AreRoots (numbered frame.now) roots) }
{
    let mut roots = effects(alloc, frame)?;
    root(&mut roots, versions, frame.exports());
    Ok(roots)
}

/// The passes that count: those with a side effect, those that make what is exported, and all whose work, from pass to
/// pass, goes into one of these. The work grows with the number of reads and writes.
pub fn cull(alloc: Global, frame: &ValidFrame, versions: &Versions) -> Result<Kept, NoMemory>
    requires { versions.now ≡ numbers_of (numbered frame.now) }
    ensures { IfOk result (λ kept. AreKept (numbered frame.now) kept) }
{
    let roots = roots(alloc, frame, versions)?;
    let refs = needed(alloc, versions.sources(), &roots)?;
    Ok(Kept::new(positive(alloc, &refs)?))
}
