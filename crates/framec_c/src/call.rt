//! A command on bytes, answered into the caller's room.

ghost use Rattle.std.specs.Prelude.{◌≡◌, ◌≤◌, ◌++◌, pos, length, drop, nat_le};
ghost use Rattle.answer.specs.Statuses.{number_of, status_of};
ghost use Rattle.framec_c.specs.Calls.{Gives, placed};
ghost use Rattle.framec_c.specs.Exports.{command_of};

use crate::export::{Export, command_of};
use answer::{Answer, Status, answer_to};
use std::alloc::Global;

/// The number of the status that a command on these bytes ends with. `wanted` is left as the number of bytes of the whole text, and
/// `output` with that text where it fits, or else as it was.
#[tactic(auto, using(crate::proofs::AtRest::at_rest, crate::proofs::AtRest::bounded))]
pub fn call(alloc: Global, export: Export, input: &[u8], output: &mut [u8], wanted: &mut u64) -> i32
    ensures gives { Gives (command_of export) input.now output.old output.new wanted.new result }
{
    match answer_to(alloc, &command_of(export), input) {
        Ok(answer) => give(&answer, output, wanted),
        Err(_) => lack(wanted),
    }
}

fn give(answer: &Answer, output: &mut [u8], wanted: &mut u64) -> i32
    ensures number { result ≡ pos (number_of (status_of answer.now.status)) }
    ensures wanted { wanted.new ≡ length answer.now.text }
    ensures output { output.new ≡ placed answer.now.text output.old }
{
    *wanted = answer.text.len() as u64;
    place(output, answer.text.as_slice());
    number_of(Status::from(answer.status))
}

// Memory ran out: there is no text.
fn lack(wanted: &mut u64) -> i32
    ensures number { result ≡ pos (number_of Status.NoMemory) }
    ensures wanted { wanted.new ≡ 0 }
{
    *wanted = 0;
    number_of(Status::NoMemory)
}

fn number_of(status: Status) -> i32
    ensures { result ≡ pos (number_of status) }
{
    status.number() as i32
}

fn place(output: &mut [u8], text: &[u8])
    ensures { output.new ≡ placed text.now output.old }
{
    if fits(text, output) {
        fill(output, text);
    }
}

fn fits(text: &[u8], room: &[u8]) -> bool
    ensures { result ≡ nat_le (length text.now) (length room.now) }
{
    text.len() <= room.len()
}

fn fill(output: &mut [u8], text: &[u8])
    requires { length text.now ≤ length output.old }
    ensures { output.new ≡ text.now ++ drop (length text.now) output.old }
{
    output[..text.len()].copy_from_slice(text);
}
