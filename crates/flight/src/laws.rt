//! The law of frames in flight.

ghost use Rattle.flight.specs.Laws.{AllAreAlone, ExportsAreAlone, NextIsHeld, NumbersAgree, OfFlights};

/// Of frames that fly together: each window has the numbers of the window of their numbers. Where a window begins with what is
/// persisted before its first frame, and its exports are read, then each of its frames has at the places of its exports what it means
/// alone, begun with what the frames before it left one after another; and what stands at the places of the persisting names is
/// persisted before the next window. So it is for all windows in turn. It does nothing.
pub fn flight_laws()
    ensures numbers { OfFlights NumbersAgree }
    ensures exports { OfFlights ExportsAreAlone }
    ensures next { OfFlights NextIsHeld }
    ensures in_turn { OfFlights AllAreAlone }
{}
