//! What a device holds of begun commands.

ghost use Rattle.std.specs.Prelude.{◌≡◌, ◌<◌, length, replicate, slice_set, None, Some, IfOk};
ghost use Rattle.device.specs.Internal.Loads.{pending_at};

use crate::room::Room;
use crate::work::Work;
use base::{List, NoMemory};
use device_cache::Contents;
use std::alloc::Global;

/// What a begun command loaded, what is to be computed of it, and room for what it stores.
#[derive(Drop)]
pub(crate) struct Pending {
    pub loaded: List<Contents>,
    pub work: Work,
    pub room: Room,
}

/// Nothing is pending of so many nodes.
pub(crate) fn none_pending(alloc: Global, count: usize) -> Result<Vec<Option<Pending>>, NoMemory>
    ensures { IfOk result (λ list. list.items ≡ replicate count None) }
{
    let mut list = Vec::new(alloc);
    for _node in 0..count {
        list.push(None)?;
    }
    Ok(list)
}

/// Something is pending of a node.
pub(crate) fn put_pending(list: &mut Vec<Option<Pending>>, node: u32, pending: Pending)
    requires { node < length list.old.items }
    ensures { list.new.items ≡ slice_set list.old.items node (Some pending) }
{
    list[node as usize] = Some(pending);
}

/// What is pending of a node; nothing is pending of it any more.
pub(crate) fn take_pending(list: &mut Vec<Option<Pending>>, node: u32) -> Option<Pending>
    requires { node < length list.old.items }
    ensures taken { result ≡ pending_at list.old.items node }
    ensures rest { list.new.items ≡ slice_set list.old.items node None }
{
    std::mem::replace(&mut list[node as usize], None)
}
