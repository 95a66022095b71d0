//! Laws of devices.

ghost use Rattle.std.specs.Prelude.{◌≡◌, ℕ, None, List, true};
ghost use Rattle.base.specs.declared.cache_move.CacheMove.{CacheMove};
ghost use Rattle.base.specs.declared.event.Event.{Event};
ghost use Rattle.device_model.specs.Devices.{Device, opening, state_of, fresh, NoneBegun};
ghost use Rattle.device_model.specs.Histories.{is_move, GoesNowhere, GoesOnByNode, GoesOnByMove, Joins};
ghost use Rattle.device_model.specs.Laws.{Simulates, Progresses};
ghost use Rattle.device_model.specs.Moves.{MovesBy};
ghost use Rattle.device_model.specs.Ready.{is_command};
ghost use Rattle.device_model.specs.Rounds.{MayGo, IsRound, IsJob, LeavesPhases, CountsDown};
ghost use Rattle.device_model.specs.Runs.{GoesOnBy, Runs};
ghost use Rattle.device_model.specs.States.{opened};
ghost use Rattle.device_model.specs.Within.{LinesWithin};
ghost use Rattle.program.specs.FirstFault.{first_fault};
ghost use Rattle.program.specs.declared.program.Program.{Program};

/// Of a sound program, whatever events come: a command loads and stores, and the host reads, what it would where all commands
/// run one after another with bytes of their own for each piece; and unless all nodes are done, one is ready or a command is
/// begun. And of any program without a fault, no line stands for a byte behind the end of a memory. It does nothing.
pub fn device_laws()
    ensures simulates { Simulates }
    ensures progresses { Progresses }
    ensures runs { (d : Device) → first_fault d.program ≡ None → Runs d }
    ensures within { (d : Device) → first_fault d.program ≡ None → LinesWithin d.program (state_of d) }
{}

/// What a device is when nothing has happened, and what each event that is enabled does to it. It does nothing.
pub fn event_laws()
    ensures opens { (program : Program) (fill moves : ℕ) → state_of (fresh program fill moves) ≡ opened (opening program fill) }
    ensures nodes { (d : Device) (n : ℕ) → GoesOnBy d n }
    ensures moves { (d : Device) (m : CacheMove) → MovesBy d m }
    ensures jobs { (d : Device) → first_fault d.program ≡ None → (n : ℕ) → MayGo is_command d n → IsJob d n }
{}

/// Where a device takes the events of one node right after one another, each round leaves one node less to do. It does nothing.
pub fn round_laws()
    ensures rounds { (d : Device) → NoneBegun d → (n : ℕ) → IsRound d n }
    ensures moves { (d : Device) (event : Event) → is_move event ≡ true → LeavesPhases d event }
    ensures counts { (d : Device) → CountsDown d }
{}

/// How a history grows, event by event. It does nothing.
pub fn history_laws()
    ensures nowhere { (d : Device) → GoesNowhere d }
    ensures node { (old new : Device) (events : List Event) (event : Event) → GoesOnByNode old new events event }
    ensures cache_move { (old new : Device) (events : List Event) (event : Event) → GoesOnByMove old new events event }
    ensures joins { (old middle new : Device) (first second : List Event) → Joins old middle new first second }
{}
