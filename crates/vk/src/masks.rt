//! What a barrier orders.

use crate::{Accesses, Stages};

/// A barrier's masks: it waits for the source stages and makes their accesses available, and it holds back the destination
/// stages and makes memory visible to their accesses.
#[derive(Clone, Copy, Debug, PartialEq, Eq)]
pub struct Masks {
    pub src_stages: Stages,
    pub src_accesses: Accesses,
    pub dst_stages: Stages,
    pub dst_accesses: Accesses,
}
