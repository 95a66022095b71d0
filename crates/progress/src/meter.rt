//! The line, and what is counted for it.

use std::io::Eprint;
use std::sync::atomic::{AtomicBool, AtomicU64, Ordering};
use std::sync::{Condvar, Mutex, Wait};
use std::time::{Clock, Duration, Instant};

// A command that ends sooner has no line, in milliseconds.
const FIRST: u64 = 1000;

// The line is written anew as often, in milliseconds.
const STEP: u64 = 250;

// Back to the begin of the line, and all of it wiped.
const WIPE: &str = "\r\u{1b}[K";

// What the line is.
#[derive(Clone, Copy, Debug)]
enum Line {
    /// Not yet there.
    Hidden,
    Shown,
    /// Wiped, and not written any more.
    Ended,
}

/// What a command has done so far, and the line that tells it. A line that cannot be written is left out.
#[derive(Drop)]
pub struct Meter {
    files: u64,
    begun: AtomicU64,
    commands: AtomicU64,
    waits: AtomicBool,
    line: Mutex<Line>,
    ended: Condvar,
}

impl Meter {
    /// Nothing is done yet of so many files.
    pub fn new(files: u64) -> Meter {
        Meter {
            files,
            begun: AtomicU64::new(0),
            commands: AtomicU64::new(0),
            waits: AtomicBool::new(false),
            line: Mutex::new(Line::Hidden),
            ended: Condvar::new(),
        }
    }

    /// One file more is begun.
    pub fn begin_file(&self) {
        self.begun.fetch_add(1, Ordering::SeqCst);
    }

    /// One command of a device more is done.
    pub fn end_command(&self) {
        self.commands.fetch_add(1, Ordering::SeqCst);
    }

    /// Input is waited for, and the line is hidden.
    pub fn begin_wait<R: Wait + Eprint>(&self, rt: &R) {
        self.waits.store(true, Ordering::SeqCst);
        self.hide(rt);
    }

    /// Input is there, or a failure to read it.
    pub fn end_wait(&self) {
        self.waits.store(false, Ordering::SeqCst);
    }

    /// Writes the line again and again, from the first second on, until `end` is called, and not while input is waited for.
    pub fn show<R: Wait + Clock + Eprint>(&self, rt: &R) {
        let Ok(start) = Instant::now(rt) else { return };
        for _ in rt.forever() {
            let mut line = self.line.lock(rt);
            if matches!(*line, Line::Ended) {
                return;
            }
            if self.is_due(rt, start) {
                *line = Line::Shown;
                self.write(rt, start);
            }
            let (_line, _) = self
                .ended
                .wait_timeout(rt, line, Duration::from_millis(STEP));
        }
    }

    // Whether the line is to be written now.
    fn is_due<R: Clock>(&self, rt: &R, start: Instant) -> bool {
        match start.elapsed(rt) {
            Ok(elapsed) => {
                elapsed >= Duration::from_millis(FIRST) && !self.waits.load(Ordering::SeqCst)
            }
            Err(_) => false,
        }
    }

    fn write<R: Clock + Eprint>(&self, rt: &R, start: Instant) {
        let Ok(elapsed) = start.elapsed(rt) else {
            return;
        };
        let seconds = elapsed.as_secs();
        let commands = self.commands.load(Ordering::SeqCst);
        let begun = self.begun.load(Ordering::SeqCst);
        let _ = eprint!(rt; "{WIPE}framec: {seconds} s");
        if self.files > 1 {
            let _ = eprint!(rt; ", file {begun} of {}", self.files);
        }
        if commands > 0 {
            let _ = eprint!(rt; ", {commands} commands done");
        }
    }

    /// Wipes the line, which may be written again.
    pub fn hide<R: Wait + Eprint>(&self, rt: &R) {
        let mut line = self.line.lock(rt);
        if matches!(*line, Line::Shown) {
            wipe(rt);
            *line = Line::Hidden;
        }
    }

    /// Wipes the line for good.
    pub fn end<R: Wait + Eprint>(&self, rt: &R) {
        let mut line = self.line.lock(rt);
        if matches!(*line, Line::Shown) {
            wipe(rt);
        }
        *line = Line::Ended;
        self.ended.notify_one();
    }
}

fn wipe<R: Eprint>(rt: &R) {
    let _ = eprint!(rt; "{WIPE}");
}
