//! Memories and caches a byte at a time, to compare with.

ghost use Rattle.std.specs.Prelude.{◌<◌};

use crate::caches_step::{Call, Step};

/// A byte of a cache.
#[derive(Clone, Copy, PartialEq)]
pub(crate) enum Byte {
    Absent,
    Clean(u8),
    Dirty(u8),
}

/// All memories end to end, and so for each agent.
#[derive(Drop)]
pub(crate) struct Plain {
    pub main: Vec<u8>,
    pub lines: Vec<Byte>,
}

impl Plain {
    /// Makes the step in a memory that begins at `base`.
    pub(crate) fn make(&mut self, step: Step, base: usize)
        requires { base < 1000 }
    {
        match step.call {
            Call::WriteBackAll | Call::DropCleanAll => {
                for at in 0..self.main.len() {
                    self.make_at(step, 0, at);
                }
            }
            _ => {
                let first = base + step.start as usize;
                for k in 0..step.len {
                    self.make_at(step, k, first + k as usize);
                }
            }
        }
    }

    // At place k of its range, which is byte `at`.
    fn make_at(&mut self, step: Step, k: u32, at: usize) {
        let line = self.line_index(step.agent, at);
        if at < self.main.len() && line < self.lines.len() {
            let (main, byte) = made(step, k, self.main[at], self.lines[line]);
            self.main[at] = main;
            self.lines[line] = byte;
        }
    }

    /// What the agent sees, or main's byte where no agent is named.
    pub(crate) fn seen(&self, agent: Option<u32>, at: usize) -> u8
        requires { at < 1000 }
    {
        let main = self.main.get(at).copied().unwrap_or(0);
        let Some(agent) = agent else {
            return main;
        };
        let line = self.line_index(agent, at);
        match self.lines.get(line).copied().unwrap_or(Byte::Absent) {
            Byte::Absent => main,
            Byte::Clean(byte) => byte,
            Byte::Dirty(byte) => byte,
        }
    }

    fn line_index(&self, agent: u32, at: usize) -> usize {
        (agent as usize)
            .wrapping_mul(self.main.len())
            .wrapping_add(at)
    }
}

fn made(step: Step, k: u32, main: u8, line: Byte) -> (u8, Byte) {
    match (step.call, line) {
        (Call::Put, _) => (main, Byte::Dirty(step.byte(k))),
        (Call::WriteBack | Call::WriteBackAll, Byte::Dirty(byte)) => (byte, Byte::Clean(byte)),
        (Call::Fill, Byte::Absent) => (main, Byte::Clean(main)),
        (Call::DropClean | Call::DropCleanAll, Byte::Clean(_)) => (main, Byte::Absent),
        (Call::Junk, _) => ((k % 251) as u8, line),
        _ => (main, line),
    }
}
