//! For each use of a unit the group before its own.

ghost use Rattle.std.specs.Prelude.{◌≡◌, ◌<◌, length, IfOk};
ghost use Rattle.compile_queues.specs.Internal.Spans.{AreWithin, joined, next_span, spans_of};

use crate::joins::joined;
use base::{Family, List, NoMemory};
use compile_groups::Use;
use std::alloc::Global;
use vk::Sharing;

/// The uses from one number up to another. They stand by unit, and then by command.
#[derive(Clone, Copy, Debug)]
pub(crate) struct Span {
    pub from: usize,
    pub to: usize,
}

// That of use j, where the use before it has this one.
#[tactic(auto, using(crate::proofs::Walking::first_span, crate::proofs::Walking::later_span))]
fn next_span(
    families: &[Family],
    sharings: &[Sharing],
    queues: &[u32],
    uses: &[Use],
    j: usize,
    span: Span,
) -> Span
    requires { j < length uses.now }
    ensures { result ≡ next_span (joined families.now sharings.now queues.now) uses.now j span }
{
    if j == 0 {
        return span;
    }
    let before = uses[j - 1];
    if joined(families, sharings, queues, before, uses[j]) {
        span
    } else {
        Span {
            from: span.to,
            to: j,
        }
    }
}

/// For each use the group before its own, where commands are on these queues. It may be of another unit.
#[tactic(auto, using(crate::proofs::Walking::next_is, crate::proofs::Walking::span_after, crate::proofs::Walking::spans_more, crate::proofs::Walking::spans_all, crate::proofs::Swept::all_within))]
pub(crate) fn spans_of(
    alloc: Global,
    families: &[Family],
    sharings: &[Sharing],
    queues: &[u32],
    uses: &[Use],
) -> Result<List<Span>, NoMemory>
    ensures spans { IfOk result (λ spans. spans ≡ spans_of (joined families.now sharings.now queues.now) uses.now) }
    ensures within { IfOk result (λ spans. AreWithin uses.now spans) }
{
    let mut spans = List::new(alloc);
    let mut span = Span { from: 0, to: 0 };
    for j in 0..uses.len() {
        span = next_span(families, sharings, queues, uses, j, span);
        spans.push(span)?;
    }
    Ok(spans)
}
