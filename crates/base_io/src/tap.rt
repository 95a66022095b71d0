//! Who is told the events of a device.

ghost use Rattle.std.specs.Prelude.{List, [], ◌∷◌, ◌≡◌, ◌↔◌};

use base::Event;

/// Whether a tap wants to hear more.
#[derive(Clone, Copy, Debug, PartialEq, Eq)]
pub enum Tell {
    More,
    Finished,
}

/// Listens to a history, event by event, until it has heard enough.
pub trait Tap: Drop {
    ghost use Rattle.std.specs.declared.option.Option.{Option};
    ghost use Rattle.base.specs.declared.event.Event.{Event};
    ghost use Rattle.base_io.specs.Taps.{Hears};

    /// The events that it heard, where the tap tells them.
    ghost heard: { Self → Option (List Event) };

    /// It wants no more events.
    ghost finished: { Self → Type 0 };

    /// Hears the event, or is finished and hears nothing.
    fn told(&mut self, event: &Event) -> Tell
        ensures more { result ≡ Tell.More → Hears (heard self.old) (heard self.new) (event.now ∷ []) }
        ensures finished { (result ≡ Tell.Finished) ↔ finished self.new }
        ensures rest { result ≡ Tell.Finished → heard self.new ≡ heard self.old };
}
