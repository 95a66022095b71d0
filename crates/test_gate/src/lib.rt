//! A gate in which commands meet, for tests. No crate of the product stands on it.
#![tactic(auto)]

ghost use Rattle.std.specs.Prelude.{◌<◌};

use base_io::Gate;
use std::sync::atomic::{AtomicBool, AtomicU32, Ordering};
use std::thread;

const TURNS: u32 = 2_000_000;

// Which commands have come to one side of the gate, by their places.
#[derive(Drop)]
struct Side {
    came: [AtomicBool; 3],
}

impl Side {
    fn new() -> Side {
        Side {
            came: [
                AtomicBool::new(false),
                AtomicBool::new(false),
                AtomicBool::new(false),
            ],
        }
    }

    fn has(&self, place: usize) -> bool
        requires { place < 3 }
    {
        self.came[place].load(Ordering::SeqCst)
    }

    fn is_full(&self) -> bool {
        self.has(0) && self.has(1) && self.has(2)
    }

    // Whether all commands have come within many turns.
    fn fills(&self) -> bool {
        for _turn in 0..TURNS {
            if self.is_full() {
                return true;
            }
            thread::yield_now();
        }
        false
    }
}

/// A gate in which two or three commands meet before they are computed, and again afterwards: each goes on only after the others
/// have come, or after many turns.
#[derive(Drop)]
pub struct Meeting {
    nodes: [u32; 3],
    entering: Side,
    leaving: Side,
    missed: AtomicU32,
}

impl Meeting {
    /// For the commands that are these nodes.
    pub fn new(first: u32, second: u32) -> Meeting {
        Meeting::of_three(first, second, second)
    }

    /// The same for three commands.
    pub fn of_three(first: u32, second: u32, third: u32) -> Meeting {
        Meeting {
            nodes: [first, second, third],
            entering: Side::new(),
            leaving: Side::new(),
            missed: AtomicU32::new(0),
        }
    }

    /// Whether all have come to both sides, and none was missed.
    pub fn took_place(&self) -> bool {
        self.entering.is_full() && self.leaving.is_full() && self.missed.load(Ordering::SeqCst) == 0
    }

    // A command comes to a side, and waits there for the others.
    fn come(&self, side: &Side, node: u32) {
        let mut is_one = false;
        for place in 0..3 {
            if self.nodes[place] == node {
                is_one = true;
                side.came[place].store(true, Ordering::SeqCst);
            }
        }
        if is_one && !side.fills() {
            self.missed.fetch_add(1, Ordering::SeqCst);
        }
    }
}

impl Gate for Meeting {
    fn enter(&self, node: u32) {
        self.come(&self.entering, node);
    }

    fn leave(&self, node: u32) {
        self.come(&self.leaving, node);
    }
}
