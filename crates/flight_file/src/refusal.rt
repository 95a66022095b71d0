//! Why a file of frames does not fly.

ghost use Rattle.std.specs.Prelude.{◌≡◌, ◌++◌, IfOk};
ghost use Rattle.flight_file.specs.Texts.{fault_text, refusal_text};
ghost use Rattle.report.specs.Faults.{frame_fault_text};
ghost use Rattle.report.specs.Flights.{flight_text};
ghost use Rattle.report.specs.declared.flight.FlightLine.TheVariants as lines;

use base::{List, NoMemory, Text};
use flight::FlightFault;
use frame::FrameFault;
use report::{FlightLine, flight_text, frame_fault_text};
use std::alloc::Global;

/// The first reason for which a file is not flown.
#[derive(Debug, Drop)]
pub enum Refusal {
    /// There is no line, or there are more than 64.
    Count,
    /// The first line that has a fault.
    Frame { frame: u32, fault: FrameFault },
    /// The frames do not fly together.
    Flight(FlightFault),
}

// The text of this line alone.
fn line_text(alloc: Global, line: &FlightLine) -> Result<Text, NoMemory>
    ensures { IfOk result (λ text. text ≡ flight_text line.now) }
{
    let mut text = List::new(alloc);
    flight_text(&mut text, line)?;
    Ok(text)
}

fn frame_text(alloc: Global, frame: u32, fault: &FrameFault) -> Result<Text, NoMemory>
    ensures { IfOk result (λ text. text ≡ flight_text (lines.FaultOf frame) ++ frame_fault_text fault.now) }
{
    let mut text = line_text(alloc, &FlightLine::FaultOf { frame })?;
    let rest = frame_fault_text(alloc, fault)?;
    text.extend_from_slice(&rest)?;
    Ok(text)
}

fn fault_text(alloc: Global, fault: FlightFault) -> Result<Text, NoMemory>
    ensures { IfOk result (λ text. text ≡ fault_text fault) }
{
    match fault {
        FlightFault::Queues { frame } => line_text(alloc, &FlightLine::Queues { frame }),
        FlightFault::Persist { frame, name } => {
            line_text(alloc, &FlightLine::Persist { frame, name })
        }
        FlightFault::Window { window, limit } => {
            line_text(alloc, &FlightLine::Window { window, limit })
        }
    }
}

/// The line that tells it.
pub fn refusal_text(alloc: Global, refusal: &Refusal) -> Result<Text, NoMemory>
    ensures { IfOk result (λ text. text ≡ refusal_text refusal.now) }
{
    match refusal {
        Refusal::Count => line_text(alloc, &FlightLine::Count),
        Refusal::Frame { frame, fault } => frame_text(alloc, *frame, fault),
        Refusal::Flight(fault) => fault_text(alloc, *fault),
    }
}
