//! What stands before the first group of a unit.

ghost use Rattle.std.specs.Prelude.{◌≡◌, ◌<◌, [], length, is_some};
ghost use Rattle.compile_barriers.specs.Masks.{no_masks};
ghost use Rattle.compile_barriers.specs.Prologues.{first, has_uses, first_kind, prologue_between};
ghost use Rattle.compile_barriers.specs.declared.prologue.PrologueKind.TheVariants as kinds;

use crate::masks::{barrier_masks, entry_masks};
use crate::{Prologue, PrologueKind};
use compile_groups::Use;
use vk::{Accesses, Masks, Stages};

fn first_kind(is_reused: bool, is_image: bool) -> PrologueKind
    ensures { result ≡ first_kind is_reused is_image }
{
    match (is_reused, is_image) {
        (false, false) => PrologueKind::Nothing,
        (false, true) => PrologueKind::Init,
        (true, false) => PrologueKind::Alias,
        (true, true) => PrologueKind::AliasInit,
    }
}

fn no_masks() -> Masks
    ensures { result ≡ no_masks }
{
    Masks {
        src_stages: Stages(0),
        src_accesses: Accesses(0),
        dst_stages: Stages(0),
        dst_accesses: Accesses(0),
    }
}

/// Before the first uses of a placed unit, where these are the last ones that its bytes had before.
pub(crate) fn first_prologue(g: u32, last: &[Use], after: &[Use]) -> Prologue
    requires { 0 < length after.now }
    ensures { result ≡ prologue_between (first_kind (has_uses last.now) (is_some (first after.now).layout)) g [] last.now after.now }
{
    let queue = after[0].queue;
    let is_reused = !last.is_empty();
    let is_image = after[0].layout.is_some();
    let masks = match (is_reused, is_image) {
        (true, _) => barrier_masks(last, after, queue),
        (false, true) => entry_masks(after, queue),
        (false, false) => no_masks(),
    };
    Prologue {
        queue,
        group: g,
        kind: first_kind(is_reused, is_image),
        masks,
        release: None,
        release_queue: None,
    }
}

/// Before the first uses of an import.
pub(crate) fn no_prologue(g: u32, after: &[Use]) -> Prologue
    requires { 0 < length after.now }
    ensures { result ≡ prologue_between kinds.Nothing g [] [] after.now }
{
    Prologue {
        queue: after[0].queue,
        group: g,
        kind: PrologueKind::Nothing,
        masks: no_masks(),
        release: None,
        release_queue: None,
    }
}
