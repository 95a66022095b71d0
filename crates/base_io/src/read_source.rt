//! A reader of std as a source.

ghost use Rattle.std.specs.Prelude.{◌≡◌, ◌<◌, length};
ghost use Rattle.base_io.specs.Memory.{one_fault_more};
ghost use Rattle.base_io.specs.Reads.{IsWithin, ReadsBytes, CountsFault};
ghost use Rattle.base_io.specs.declared.source.ReadResult.TheVariants as taken;

use crate::{ReadResult, Source};
use std::io::Read;

/// A reader whose failures are counted. It tells of its bytes what the reader tells.
#[derive(Drop)]
pub struct ReadSource<T> {
    inner: T,
    faults: u64,
}

impl<T: Read> ReadSource<T> {
    pub fn new(inner: T) -> Self
        ensures left { ⟦<ReadSource<T> as Source>⟧.left result ≡ T.remaining inner }
        ensures faults { ⟦<ReadSource<T> as Source>⟧.faults result ≡ 0 }
    {
        ReadSource { inner, faults: 0 }
    }
}

impl<T: Read> Source for ReadSource<T> {
    ghost left = { λ s. T.remaining s.inner };

    ghost faults = { λ s. s.faults };

    fn read(&mut self, into: &mut [u8]) -> ReadResult
        requires { 0 < length into.old }
        ensures within { IsWithin result (length into.new) }
        ensures bytes { ReadsBytes (⟦<ReadSource<T> as Source>⟧.left self.old) (⟦<ReadSource<T> as Source>⟧.left self.new) result into.new }
        ensures count { CountsFault (⟦<ReadSource<T> as Source>⟧.faults self.old) (⟦<ReadSource<T> as Source>⟧.faults self.new) result }
        ensures one { result ≡ taken.Failed → ⟦<ReadSource<T> as Source>⟧.faults self.new ≡ one_fault_more (⟦<ReadSource<T> as Source>⟧.faults self.old) }
    {
        match self.inner.read(into) {
            Ok(0) => ReadResult::End,
            Ok(count) => ReadResult::Got(count),
            Err(_) => {
                self.faults = self.faults.saturating_add(1);
                ReadResult::Failed
            }
        }
    }
}
