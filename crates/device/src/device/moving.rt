//! Lines of caches move.

ghost use Rattle.std.specs.Prelude.{◌≡◌, ◌<◌, true};
ghost use Rattle.base.specs.declared.event.Event.TheVariants as events;
ghost use Rattle.device_model.specs.Histories.{moved};
ghost use Rattle.device_model.specs.Steps.{may_move};

use super::Device;
use base::{CacheMove, Event};
use device_model::event_laws;

impl Device {
    /// The event Move. It uses one of the moves that are left.
    pub fn move_lines(&mut self, cache_move: CacheMove)
        requires moves { 0 < self.old.moves }
        requires may { may_move self.old.program cache_move ≡ true }
        ensures { self.new ≡ moved self.old (events.Move cache_move) }
    {
        event_laws();
        self.table.move_lines(cache_move);
        self.moves -= 1;
        self.history.push_reserved(Event::Move(cache_move));
    }
}
