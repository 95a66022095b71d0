//! Threads that commands may take.

ghost use Rattle.std.specs.Prelude.{◌≡◌, ◌≤◌, ◌+◌};

/// How many threads commands may take, one for the caller of each among them, and how many of these are free.
#[derive(Clone, Copy, Debug, Drop)]
pub(crate) struct Helpers {
    lent: usize,
    free: usize,
}

impl Helpers {
    pub fn new(lent: usize) -> Helpers
        ensures lent { result.lent ≡ lent }
        ensures free { result.free ≡ lent }
    {
        Helpers { lent, free: lent }
    }

    /// Takes the thread of who computes a command and so many that help it, or as many as are free.
    pub fn take(&mut self, helping: usize) -> usize
        ensures taken { result + self.new.free ≡ self.old.free }
        ensures most { result ≤ helping + 1 }
        ensures lent { self.new.lent ≡ self.old.lent }
    {
        let taken = self.free.min(helping.saturating_add(1));
        self.free = self.free.saturating_sub(taken);
        taken
    }

    /// Takes back what was taken.
    pub fn give_back(&mut self, taken: usize)
        ensures free { self.new.free ≤ self.new.lent }
        ensures lent { self.new.lent ≡ self.old.lent }
    {
        self.free = self.free.saturating_add(taken).min(self.lent);
    }
}
