//! The command `auto`.

ghost use Rattle.std.specs.Prelude.{◌≡◌, IfOk};
ghost use Rattle.answer.specs.Answers.{ChoosesQueues, CostsFrame};
ghost use Rattle.report_json.specs.Told.{cost_told};

use crate::answer::{Answer, done};
use base::{NoMemory, Text};
use base_text::Lines;
use cli::Form;
use compile_queues::{Choice, choose};
use file_frame::write_frame;
use frame::ValidFrame;
use report_json::cost_told;
use std::alloc::Global;

/// The answer to the command on a valid frame.
pub fn auto_frame(alloc: Global, good: &ValidFrame) -> Result<Answer, NoMemory>
    ensures frame { IfOk result (ChoosesQueues good.now) }
{
    let choice = choose(alloc, good)?;
    let mut text = write_frame(alloc, choice.frame.frame())?;
    text.end_line()?;
    Ok(done(text))
}

// What the frame costs as given and as chosen.
fn cost_line(alloc: Global, form: Form, choice: &Choice) -> Result<Text, NoMemory>
    ensures { IfOk result (λ text. text ≡ cost_told form choice.now.given choice.now.found) }
{
    cost_told(alloc, form, choice.given, choice.found)
}

/// The answer to the command with `--cost`.
pub fn cost_frame(alloc: Global, form: Form, good: &ValidFrame) -> Result<Answer, NoMemory>
    ensures frame { IfOk result (CostsFrame form good.now) }
{
    let choice = choose(alloc, good)?;
    Ok(done(cost_line(alloc, form, &choice)?))
}
