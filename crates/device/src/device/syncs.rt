//! A barrier, wait or signal takes effect.

ghost use Rattle.std.specs.Prelude.{◌≡◌, true};
ghost use Rattle.base.specs.declared.event.Event.TheVariants as events;
ghost use Rattle.check_order.specs.Edges.{is_sync};
ghost use Rattle.device_model.specs.Devices.{view_in, did, is_ready};
ghost use Rattle.device_model.specs.Ready.{kind_at};

use super::Device;
use crate::syncing::synchronise;
use base::Event;
use device_model::event_laws;

impl Device {
    /// The event Sync of a barrier, wait or signal.
    pub fn sync(&mut self, node: u32)
        requires sync { is_sync (kind_at (view_in self.old) node) ≡ true }
        requires ready { is_ready self.old node ≡ true }
        ensures { self.new ≡ did self.old (events.Sync node) }
    {
        event_laws();
        synchronise(&mut self.table, &self.control, node);
        self.control.sync(node);
        self.history.push_reserved(Event::Sync { node });
    }
}
