//! Laws of queues.

ghost use Rattle.std.specs.Prelude.{◌≡◌, ◌↔◌, ℕ, List, None};
ghost use Rattle.compile_queues.specs.Queues.{AllServe, on_queues};
ghost use Rattle.compile_queues.specs.Renamed.{AreQueues, frame_on};
ghost use Rattle.frame.specs.FirstFault.{first_fault};
ghost use Rattle.frame.specs.Numbered.{NumberedFrame, numbered};
ghost use Rattle.frame.specs.declared.frame.Frame.{Frame};
ghost use Rattle.frame_meaning.specs.Meaning.{meaning};
ghost use Rattle.frame_cull.specs.Culled.{Culled};

/// On which queues passes run changes nothing of what a frame means and of what is culled. With its passes on queues that
/// run all their operations a frame without a fault has none, and its numbers differ in these queues alone. It does nothing.
pub fn auto_laws()
    ensures meaning { (qs : List ℕ) (frame : NumberedFrame) (unit : ℕ) → meaning (on_queues qs frame) unit ≡ meaning frame unit }
    ensures culled { (qs : List ℕ) (frame : NumberedFrame) (p : ℕ) → Culled (on_queues qs frame) p ↔ Culled frame p }
    ensures numbers { (frame : Frame) (qs : List ℕ) → first_fault frame ≡ None → AreQueues frame qs → numbered (frame_on qs frame) ≡ on_queues qs (numbered frame) }
    ensures good { (frame : Frame) (qs : List ℕ) → first_fault frame ≡ None → AreQueues frame qs → AllServe (numbered frame).queues qs (numbered frame).passes → first_fault (frame_on qs frame) ≡ None }
{}
