//! What lies at the addresses of a segment.

ghost use Rattle.std.specs.Prelude.{◌≡◌, ◌<◌, length, true};
ghost use Rattle.device_cache.specs.Internal.Rows.{changed};

use crate::cell::Cell;
use crate::change::{Change, leaves, line_after, main_after};
use crate::part::Part;

/// As many agents as a table may have.
pub(crate) const AGENTS: usize = 32;

/// The part that main has, and the lines of each agent.
#[derive(Clone, Copy, Debug)]
pub(crate) struct Row {
    pub main: Part,
    pub lines: [Cell; AGENTS],
}

impl Row {
    /// Whether the change is one of moves and the agent has no lines for it.
    pub(crate) fn is_left(&self, agent: usize, change: Change) -> bool
        requires { agent < length self.now.lines }
        ensures { result ≡ true → changed agent change self.now ≡ self.now }
    {
        leaves(change, self.lines[agent])
    }

    pub(crate) fn change(&mut self, agent: usize, change: Change)
        requires { agent < length self.old.lines }
        ensures { self.new ≡ changed agent change self.old }
    {
        let main = self.main;
        let line = self.lines[agent];
        self.main = main_after(change, main, line);
        self.lines[agent] = line_after(change, main, line);
    }
}
