//! One command.

use base::Op;

/// An operation on its queue, over the numbers of units. The copy of export k goes into the buffer that is numbered by the
/// frame's units plus k.
#[derive(Debug, Drop)]
pub struct Command {
    pub queue: u32,
    pub op: Op<u32>,
    /// The number of the export that is copied out for the host.
    pub export: Option<u32>,
}
