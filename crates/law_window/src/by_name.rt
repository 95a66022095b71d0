//! The laws of declared windows.

ghost use Rattle.std.specs.Prelude.{◌≡◌, ℕ, List, None, map};
ghost use Rattle.frame.specs.FirstFault.{first_fault};
ghost use Rattle.frame.specs.Limits.{limit_broken};
ghost use Rattle.frame.specs.Numbered.{numbered};
ghost use Rattle.frame.specs.Repeats.{first_repeat};
ghost use Rattle.frame.specs.declared.frame.Resource.{Resource};
ghost use Rattle.law_window.specs.Declared.{flown_of, holder_in};
ghost use Rattle.law_window.specs.DeclaredLaws.{EachDeclared, EachDeclaredInTurn, OfDeclared};
ghost use Rattle.law_window.specs.NamedTogether.{ArePersistedIn, AreImports};
ghost use Rattle.law_window.specs.WindowFrame.{window_frame};
ghost use Rattle.law_window.specs.Means.{MeansTheSame};
ghost use Rattle.law_window.specs.Together.{FlyTogether};
ghost use Rattle.law_window.specs.Window.{window};

/// Different persisting names are persisted by different resources. The numbers of a declared window are the window of its frames'
/// numbers, and these can be compiled together. A window that breaks no limit has no fault, and it means what its frames mean one
/// after another. So it is for each window of one depth, and for all of them one after another. It does nothing.
pub fn named_laws()
    ensures persisted { (rs : List Resource) (sizes : List ℕ) (persist : List (List ℕ)) → first_repeat persist ≡ None → AreImports rs sizes persist → ArePersistedIn rs sizes (map (holder_in rs) persist) }
    ensures numbers { OfDeclared (λ queues sizes ds persisted. numbered (window_frame queues ds persisted) ≡ window (map (λ q. q.family) queues) (map flown_of ds) persisted) }
    ensures together { OfDeclared (λ queues sizes ds persisted. FlyTogether (map (λ q. q.family) queues) sizes (map flown_of ds) persisted) }
    ensures faultless { OfDeclared (λ queues sizes ds persisted. limit_broken (window_frame queues ds persisted) ≡ None → first_fault (window_frame queues ds persisted) ≡ None) }
    ensures means { OfDeclared (λ queues sizes ds persisted. limit_broken (window_frame queues ds persisted) ≡ None → MeansTheSame (map (λ q. q.family) queues) (map flown_of ds) persisted) }
    ensures each { OfDeclared EachDeclared }
    ensures in_turn { OfDeclared EachDeclaredInTurn }
{}
