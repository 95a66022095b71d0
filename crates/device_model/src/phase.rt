//! How far a node is.

ghost use Rattle.std.specs.Prelude.{◌≡◌};
ghost use Rattle.device_model.specs.States.{is_idle, is_begun, is_done};

/// How far a node is. Only commands are ever begun.
#[derive(Clone, Copy, Debug, PartialEq, Eq)]
pub enum Phase {
    Idle,
    Begun,
    Done,
}

impl Phase {
    pub fn is_idle(self) -> bool
        ensures { result ≡ is_idle self }
    {
        matches!(self, Phase::Idle)
    }

    pub fn is_begun(self) -> bool
        ensures { result ≡ is_begun self }
    {
        matches!(self, Phase::Begun)
    }

    pub fn is_done(self) -> bool
        ensures { result ≡ is_done self }
    {
        matches!(self, Phase::Done)
    }
}
