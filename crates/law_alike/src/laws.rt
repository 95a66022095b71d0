//! What soundness sees of a view.

ghost use Rattle.law_alike.specs.Laws.{SynchronizedAlike, SoundAlike};

/// Of two views that tie the same accesses both are synchronized or neither (`synchronized`); of two that are wholly alike both
/// are sound, in the same order, or neither (`sound`). It does nothing.
pub fn alike_laws()
    ensures synchronized { SynchronizedAlike }
    ensures sound { SoundAlike }
{}
