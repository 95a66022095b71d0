//! The lines of a file.

ghost use Rattle.std.specs.Prelude.{◌≡◌, ◌<◌, ◌≤◌, ◌∷◌, ◌==◌, ◌&&◌, nat_le, length, map, vec_len, IfOk, IfSome, IfNone, false};
ghost use Rattle.std.specs.List.{position};
ghost use Rattle.flight_file.specs.Lines.{lines_of};

use base::NoMemory;
use std::alloc::Global;

// The most lines that a file may have.
const LINES: usize = 64;

// The first line, and what follows it.
#[derive(Clone, Copy)]
struct Line<'a> {
    text: &'a [u8],
    rest: &'a [u8],
}

fn line_feed(text: &[u8]) -> Option<usize>
    ensures { result ≡ position (λ x. x == 10) text.now }
{
    text.iter().position(|byte| *byte == b'\n')
}

#[tactic(auto, using(crate::proofs::Cutting::line_cut, crate::proofs::Cutting::line_last))]
fn first_line<'a>(text: &'a [u8]) -> Line<'a>
    requires { 0 < length text.now }
    ensures { lines_of text.entry.now ≡ result.text.now ∷ lines_of result.rest.now }
{
    match line_feed(text) {
        Some(place) => Line {
            text: &text[..place],
            rest: &text[place + 1..],
        },
        None => Line {
            text,
            rest: &text[text.len()..],
        },
    }
}

#[tactic(auto, using(crate::proofs::Cutting::line_on, crate::proofs::Cutting::line_end, crate::proofs::Cutting::no_lines, crate::proofs::Cutting::lines_over))]
/// The lines of a file that has 1 to 64; none where it has more or fewer.
pub(crate) fn lines_of<'a>(
    alloc: Global,
    bytes: &'a [u8],
) -> Result<Option<Vec<&'a [u8]>>, NoMemory>
    ensures lines { IfOk result (λ found. IfSome found (λ lines. map (λ line. line.now) lines.items ≡ lines_of bytes.entry.now)) }
    ensures some { IfOk result (λ found. IfSome found (λ lines. (1 ≤ vec_len lines) × (vec_len lines ≤ 64))) }
    ensures none { IfOk result (λ found. IfNone found ((nat_le 1 (length (lines_of bytes.entry.now)) && nat_le (length (lines_of bytes.entry.now)) 64) ≡ false)) }
{
    if bytes.is_empty() {
        return Ok(None);
    }
    let mut lines = Vec::new(alloc);
    let mut rest = bytes;
    for k in 0..LINES {
        let line = first_line(rest);
        lines.push(line.text)?;
        if line.rest.is_empty() {
            return Ok(Some(lines));
        }
        rest = line.rest;
    }
    Ok(None)
}
