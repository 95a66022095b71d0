//! An answer, with what devices did for it.

ghost use Rattle.std.specs.Prelude.{◌≡◌, [], ◌∷◌, IfOk};
ghost use Rattle.device_run.specs.Keepers.{KeptDevices};
ghost use Rattle.top.specs.Replies.{ran, still};

use answer::{Answer, done};
use base::{Event, List, NoMemory, Text};
use device_run::{Keep, RanDevice};
use std::alloc::Global;

/// An answer, and what devices did for it, which taps are told.
#[derive(Drop)]
pub struct Reply {
    pub answer: Answer,
    /// The history, where devices ran and taps are told.
    pub history: Option<List<Event>>,
}

/// An answer of which taps are told nothing.
pub fn still(answer: Answer) -> Reply
    ensures { result ≡ still answer }
{
    Reply {
        answer,
        history: None,
    }
}

/// The whole text of a command that ran this device, which the keeper is handed.
pub fn ran<K: Keep>(
    alloc: Global,
    keeper: &mut K,
    device: RanDevice,
    text: Text,
) -> Result<Reply, NoMemory>
    ensures reply { IfOk result (λ reply. reply ≡ ran device text) }
    ensures kept { IfOk result (λ _. KeptDevices (K.kept keeper.old) (K.kept keeper.new) (device ∷ [])) }
{
    let history = List::from_slice(alloc, device.device().history())?;
    keeper.keep(device)?;
    Ok(Reply {
        answer: done(text),
        history: Some(history),
    })
}
