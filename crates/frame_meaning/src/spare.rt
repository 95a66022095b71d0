//! Memory that serves again.

ghost use Rattle.std.specs.Prelude.{◌≡◌, ◌<◌, [], length, replicate, vec_len, slice_index_or, IfOk, IfSome};

use base::{List, NoMemory};
use std::alloc::Global;

/// Lists of bytes that no unit has any more.
#[derive(Drop)]
pub(crate) struct Spare {
    lists: Vec<List<u8>>,
}

impl Spare {
    pub fn new(alloc: Global) -> Spare {
        Spare {
            lists: Vec::new(alloc),
        }
    }

    /// Keeps a list. Where no memory is there to note it, it is freed.
    pub fn keep(&mut self, list: List<u8>) {
        let _freed = self.lists.push(list);
    }

    /// So many bytes, whatever they are.
    pub fn room(&mut self, alloc: Global, count: u128) -> Result<List<u8>, NoMemory>
        ensures { IfOk result (λ bytes. length bytes ≡ count) }
    {
        match self.find(count) {
            Some(at) => Ok(self.lists.swap_remove(at)),
            None => zeros(alloc, count),
        }
    }

    fn find(&self, count: u128) -> Option<usize>
        ensures within { IfSome result (λ at. at < vec_len self.now.lists) }
        ensures count { IfSome result (λ at. length (slice_index_or self.now.lists.items at []) ≡ count) }
    {
        self.lists
            .iter()
            .position(|list| list.len() as u128 == count)
    }
}

/// So many zeros.
pub(crate) fn zeros(alloc: Global, count: u128) -> Result<List<u8>, NoMemory>
    ensures { IfOk result (λ list. list ≡ replicate count 0) }
{
    let Ok(count) = usize::try_from(count) else {
        return Err(NoMemory);
    };
    Ok(List::from_vec(vec![in alloc; 0u8; count]?))
}
