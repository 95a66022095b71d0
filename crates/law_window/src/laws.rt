//! The laws of windows.

ghost use Rattle.std.specs.Prelude.{◌≡◌};
ghost use Rattle.frame.specs.Valid.{IsValid};
ghost use Rattle.frame_meaning.specs.Meaning.{all_bytes};
ghost use Rattle.law_window.specs.Persisted.{flown_bytes};
ghost use Rattle.law_window.specs.Laws.{EachMeansInTurn, EachTogether, OfWindows};
ghost use Rattle.law_window.specs.Means.{MeansTheSame};
ghost use Rattle.law_window.specs.Small.{IsSmall};
ghost use Rattle.law_window.specs.Window.{window};

/// The bytes of all units after a window are those of its frames, run one after another with what they hold for each other. A
/// window that has no more than a frame may have is a valid frame; its exports and the units of its persisting names mean what
/// its frames mean and leave, one after another. The frames of each window of one depth can be compiled together, and so all of
/// them mean, window after window, what they mean one after another. It does nothing.
pub fn window_laws()
    ensures bytes { OfWindows (λ queues sizes frames persisted. all_bytes (window queues frames persisted) ≡ flown_bytes frames persisted) }
    ensures good { OfWindows (λ queues sizes frames persisted. IsSmall (window queues frames persisted) → IsValid (window queues frames persisted)) }
    ensures means { OfWindows (λ queues sizes frames persisted. IsSmall (window queues frames persisted) → MeansTheSame queues frames persisted) }
    ensures each { OfWindows EachTogether }
    ensures in_turn { OfWindows EachMeansInTurn }
{}
