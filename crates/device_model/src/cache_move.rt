//! Which events are moves of caches.

ghost use Rattle.std.specs.Prelude.{◌≡◌};
ghost use Rattle.device_model.specs.Histories.{is_move};

use base::Event;

/// Whether the event is a move of a cache: one of lines, and of no node.
pub fn is_move(event: &Event) -> bool
    ensures { result ≡ is_move event.now }
{
    matches!(event, Event::Move(_))
}
