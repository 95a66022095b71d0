//! The command `meaning`.

ghost use Rattle.std.specs.Prelude.{◌≡◌, ◌<◌, ◌++◌, IfOk, OnOk, length};
ghost use Rattle.frame.specs.Numbered.{numbered};
ghost use Rattle.answer.specs.Answers.{MeansFrame};
ghost use Rattle.answer.specs.Internal.Stages.{bytes_in};
ghost use Rattle.compile_file.specs.Exports.{exports_text};

use crate::answer::{Answer, done};
use base::{List, NoMemory, Text};
use frame::ValidFrame;
use frame_meaning::{Exports, exports_of};
use report::export_text;
use std::alloc::Global;

fn add_all(text: &mut Text, good: &ValidFrame, exports: &Exports) -> Result<(), NoMemory>
    requires count { length exports.now ≡ length (numbered good.now).units }
    ensures { OnOk result (text.new ≡ text.old ++ exports_text good.now (bytes_in good.now exports.now)) }
{
    for (k, unit) in good.exports().iter().enumerate() {
        export_text(text, good, k as u32, exports.get(*unit))?;
    }
    Ok(())
}

fn exports_text(alloc: Global, good: &ValidFrame, exports: &Exports) -> Result<Text, NoMemory>
    requires count { length exports.now ≡ length (numbered good.now).units }
    ensures { IfOk result (λ text. text ≡ exports_text good.now (bytes_in good.now exports.now)) }
{
    let mut text = List::new(alloc);
    add_all(&mut text, good, exports)?;
    Ok(text)
}

/// The answer to the command on a valid frame.
pub fn mean_frame(alloc: Global, good: &ValidFrame) -> Result<Answer, NoMemory>
    ensures frame { IfOk result (MeansFrame good.now) }
{
    let exports = exports_of(alloc, good)?;
    let text = exports_text(alloc, good, &exports)?;
    Ok(done(text))
}
