//! What is computed for a command.

ghost use Rattle.std.specs.Prelude.{◌≡◌, ◌<◌, ℕ, length, Some, None, IfOk};
ghost use Rattle.device_clear.specs.Simpler.{left_of};
ghost use Rattle.device.specs.Internal.Loads.{IsRunnable, IsWork, op_in};

use base::{List, NoMemory, Op, Shape};
use bytes::Bytes;
use device_cache::Contents;
use device_clear::{Simpler, simplified};
use std::alloc::Global;

/// The operation that is run for a command, and the bytes that it runs on.
#[derive(Drop)]
pub(crate) struct Work {
    // In the place of the command's own.
    pub other: Option<Op<u32>>,
    pub bytes: List<Bytes>,
}

// All that was loaded, in memory.
fn all_bytes(alloc: Global, loaded: &[Contents]) -> Result<List<Bytes>, NoMemory>
    ensures { IfOk result (λ bytes. bytes ≡ loaded.now) }
{
    let mut bytes = List::new(alloc);
    for contents in loaded {
        bytes.push(contents.to_bytes(alloc)?)?;
    }
    Ok(bytes)
}

// Of what was loaded the one source that is left, if there is one.
fn bytes_left(
    alloc: Global,
    loaded: &[Contents],
    source: Option<usize>,
) -> Result<List<Bytes>, NoMemory>
    requires { (k : ℕ) → source ≡ Some k → k < length loaded.now }
    ensures { IfOk result (λ bytes. bytes ≡ left_of loaded.now source) }
{
    let mut bytes = List::new(alloc);
    if let Some(k) = source {
        bytes.push(loaded[k].to_bytes(alloc)?)?;
    }
    Ok(bytes)
}

// The same bytes once more, shared.
fn shared(alloc: Global, bytes: &[Bytes]) -> Result<List<Bytes>, NoMemory>
    ensures { IfOk result (λ copies. copies ≡ bytes.now) }
{
    let mut copies = List::new(alloc);
    for one in bytes {
        copies.push(one.clone()?)?;
    }
    Ok(copies)
}

impl Work {
    /// The least that has to be computed of what was loaded.
    #[tactic(auto, using(crate::proofs::Working::reads, crate::proofs::Working::works_itself, crate::proofs::Working::works_simpler))]
    pub fn new(
        alloc: Global,
        op: &Op<u32>,
        shapes: &[Shape],
        loaded: &[Contents],
    ) -> Result<Work, NoMemory>
        requires { IsRunnable shapes.now op.now loaded.now }
        ensures { IfOk result (IsWork shapes.now op.now loaded.now) }
    {
        match simplified(op, shapes, loaded) {
            Some(simpler) => Work::simpler(alloc, simpler, loaded),
            None => Work::itself(alloc, loaded),
        }
    }

    // The command's own operation, of all that was loaded.
    fn itself(alloc: Global, loaded: &[Contents]) -> Result<Work, NoMemory>
        ensures { IfOk result (λ work. work ≡ record { other = None; bytes = loaded.now }) }
    {
        let bytes = all_bytes(alloc, loaded)?;
        Ok(Work { other: None, bytes })
    }

    // A simpler one, of the source that it has.
    fn simpler(alloc: Global, simpler: Simpler, loaded: &[Contents]) -> Result<Work, NoMemory>
        requires { (k : ℕ) → simpler.source ≡ Some k → k < length loaded.now }
        ensures { IfOk result (λ work. work ≡ record { other = Some simpler.op; bytes = left_of loaded.now simpler.source }) }
    {
        let Simpler { op, source } = simpler;
        let bytes = bytes_left(alloc, loaded, source)?;
        Ok(Work {
            other: Some(op),
            bytes,
        })
    }

    /// The operation that is run.
    pub fn op<'a>(&'a self, own: &'a Op<u32>) -> &'a Op<u32>
        ensures { result.now ≡ op_in own.now self.now }
    {
        match &self.other {
            Some(other) => other,
            None => own,
        }
    }

    /// Whether it is a clear, which takes no memory.
    pub fn is_clear(&self, own: &Op<u32>) -> bool {
        matches!(self.op(own), Op::ClearImage { .. })
    }

    /// The same once more; its bytes are shared.
    pub fn copy(&self, alloc: Global) -> Result<Work, NoMemory>
        ensures { IfOk result (λ copy. copy ≡ self.now) }
    {
        let other = match &self.other {
            Some(other) => Some(other.copy(alloc)?),
            None => None,
        };
        let bytes = shared(alloc, &self.bytes)?;
        Ok(Work { other, bytes })
    }
}
