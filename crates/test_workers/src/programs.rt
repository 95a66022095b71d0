use check_program::{Checked, check};
use device::Device;
use program::{Program, ValidProgram, validate_program};
use std::alloc::Global;
use test_sketch::{SketchError, sketched_program};

// Two fills on two queues, which wait for nothing.
pub const APART: &str =
    "plain:16 plain:16 buffer:16:0:0 buffer:16:1:0 read:0 read:1 ; graphics fill:0:16 all:CLEAR,TRANSFER_WRITE>HOST,HOST_READ signal:1 ; transfer fill:1:16 all:CLEAR,TRANSFER_WRITE>HOST,HOST_READ signal:1";

// Three fills on three queues, which wait for nothing: nodes 0, 3 and 6.
pub const THREE: &str =
    "plain:16 plain:16 plain:16 buffer:16:0:0 buffer:16:1:0 buffer:16:2:0 read:0 read:1 read:2 ; graphics fill:0:16 all:CLEAR,TRANSFER_WRITE>HOST,HOST_READ signal:1 ; transfer fill:1:16 all:CLEAR,TRANSFER_WRITE>HOST,HOST_READ signal:1 ; transfer fill:2:16 all:CLEAR,TRANSFER_WRITE>HOST,HOST_READ signal:1";

// A fill on one queue; the other waits for it, and copies what it stored for the host.
pub const CHAINED: &str =
    "plain:16 plain:16 buffer:16:0:0:shared buffer:16:1:0 read:1 ; graphics fill:0:16 signal:1 ; transfer wait:0:1 copy:0:1:16 all:COPY,TRANSFER_WRITE>HOST,HOST_READ signal:1";

// A long fill, and behind it two fills on two queues.
pub const BEHIND: &str =
    "plain:16 plain:16 plain:16000000 buffer:16:0:0 buffer:16:1:0 buffer:16000000:2:0 read:0 read:1 ; graphics fill:2:16000000 all:CLEAR,TRANSFER_WRITE>CLEAR,TRANSFER_WRITE signal:1 batch fill:0:16 all:CLEAR,TRANSFER_WRITE>HOST,HOST_READ signal:2 ; transfer wait:0:1 fill:1:16 all:CLEAR,TRANSFER_WRITE>HOST,HOST_READ signal:1";

const WORDS: [u8; 16] = [7, 0, 0, 0, 7, 0, 0, 0, 7, 0, 0, 0, 7, 0, 0, 0];

fn shaped(alloc: Global, program: Program) -> Result<ValidProgram, SketchError> {
    validate_program(alloc, program).map_err(|_| SketchError::Word)
}

pub fn checked(alloc: Global, line: &str) -> Result<Checked, SketchError> {
    let shaped = shaped(alloc, sketched_program(alloc, line)?)?;
    check(alloc, shaped).map_err(|_| SketchError::Word)
}

// Whether each read-back has these bytes.
fn has_read(device: &Device, bytes: &[u8]) -> bool {
    let count = device.program().program().readbacks.len() as u32;
    for k in 0..count {
        if device.readback(k) != Some(bytes) {
            return false;
        }
    }
    true
}

// Whether the run has come to its end, with the words of the fills in each read-back.
pub fn is_over(device: &Device) -> bool {
    device.complete() && has_read(device, &WORDS)
}
