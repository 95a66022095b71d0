//! From a frame to a sound program.

ghost use Rattle.std.specs.Prelude.{◌≡◌, length, None, IfOk};
ghost use Rattle.check_program.specs.Sound.{IsSound};
ghost use Rattle.compile.specs.Right.{IsRightFor};
ghost use Rattle.compile.specs.Submitted.{submitted};
ghost use Rattle.law_meaning.specs.DeclaredLaws.{HasDeclaredOrder};
ghost use Rattle.law_meaning.specs.Laws.{IsReadMeant};
ghost use Rattle.frame.specs.Numbered.{numbered};
ghost use Rattle.compile_record.specs.Recorded.{IsCompiled};
ghost use Rattle.compile_record.specs.declared.compiled.Compiled as records;
ghost use Rattle.program.specs.FirstFault.{first_fault};
ghost use Rattle.program.specs.declared.program.Program as programs;
ghost use Rattle.frame_cull.specs.Culled.{AreKept};

use crate::laws::compile_law;
use base::NoMemory;
use check_program::{Checked, proved_sound};
use compile_record::{Compiled, record};
use frame::ValidFrame;
use std::alloc::Global;

// Whatever is compiled of the frame is right for it, and has an order with the commands as declared. It does nothing.
fn right_for(frame: &ValidFrame)
    ensures right { (made : records.Compiled programs.Program) → AreKept (numbered frame.now) made.kept → IsCompiled (numbered frame.now) made → IsRightFor (numbered frame.now) made.program }
    ensures in_order { (made : records.Compiled programs.Program) → AreKept (numbered frame.now) made.kept → IsCompiled (numbered frame.now) made → HasDeclaredOrder (numbered frame.now) made.kept made.program }
{
    frame.frame();
    compile_law();
}

/// The submissions of a frame: what its kept passes do, and the barriers, transfers, waits and signals that this needs. They
/// are sound and leave what the frame means, as the law of the compiler says, so that nothing is checked. Some order of their
/// nodes has the commands as the frame declares them (`in_order`). Want of memory is the one refusal.
pub fn compile(alloc: Global, frame: &ValidFrame) -> Result<Compiled<Checked>, NoMemory>
    ensures kept { IfOk result (λ c. AreKept (numbered frame.now) c.kept) }
    ensures compiled { IfOk result (λ c. IsCompiled (numbered frame.now) (submitted c)) }
    ensures faultless { IfOk result (λ c. first_fault c.program.program ≡ None) }
    ensures sound { IfOk result (λ c. IsSound c.program.program) }
    ensures means { IfOk result (λ c. IsReadMeant (numbered frame.now) c.program.program) }
    ensures readbacks { IfOk result (λ c. length c.program.program.readbacks ≡ length (numbered frame.now).exports) }
    ensures in_order { IfOk result (λ c. HasDeclaredOrder (numbered frame.now) c.kept c.program.program) }
{
    right_for(frame);
    let Compiled {
        program,
        kept,
        placement,
    } = record(alloc, frame)?;
    let program = proved_sound(alloc, program)?;
    Ok(Compiled {
        program,
        kept,
        placement,
    })
}
