//! What `flight` prints beside the exports of its frames.

ghost use Rattle.std.specs.Prelude.{◌≡◌, ◌++◌, OnErr, OnOk, codes};
ghost use Rattle.std.specs.Fmt.{decimal};
ghost use Rattle.base_text.specs.Starts.{Starts};
ghost use Rattle.report.specs.Flights.{flight_text};

use base::{Limit, Name, NoMemory, Text};
use base_text::{Lines, cut_back};

/// A line of several frames in flight. Frames and windows are counted from 0.
#[derive(Clone, Copy, Debug)]
pub enum FlightLine {
    /// The exports of this frame follow.
    Frame { frame: u32 },
    /// The fault of this frame follows in the same line.
    FaultOf { frame: u32 },
    /// There is no frame, or there are too many.
    Count,
    /// This frame is the first with other queues than frame 0.
    Queues { frame: u32 },
    /// This frame is the first whose resource of this persisting name is no import, or has another size than in the first
    /// frame that has the name.
    Persist { frame: u32, name: Name },
    /// This window is the first that is over a limit.
    Window { window: u32, limit: Limit },
}

#[tactic(auto, using(crate::proofs::Begun::begun, crate::proofs::Begun::begun_more))]
fn add_counted(text: &mut Text, words: &[u8], number: u32, rest: &[u8]) -> Result<(), NoMemory>
    ensures ok { OnOk result (text.new ≡ text.old ++ words.now ++ decimal number ++ rest.now) }
    ensures starts { Starts text.old text.new }
{
    text.word(words)?;
    text.number(u64::from(number))?;
    text.word(rest)
}

#[tactic(auto, using(crate::proofs::Begun::begun, crate::proofs::Begun::begun_more))]
fn add_named(text: &mut Text, words: &[u8], number: u32, name: &[u8]) -> Result<(), NoMemory>
    ensures ok { OnOk result (text.new ≡ text.old ++ words.now ++ decimal number ++ codes " " ++ name.now ++ codes "\n") }
    ensures starts { Starts text.old text.new }
{
    add_counted(text, words, number, b" ")?;
    text.word(name)?;
    text.end_line()
}

// Where memory runs out, some of the line may have been added.
#[tactic(auto, using(crate::proofs::Begun::begun))]
fn add_line(text: &mut Text, line: &FlightLine) -> Result<(), NoMemory>
    ensures ok { OnOk result (text.new ≡ text.old ++ flight_text line.now) }
    ensures starts { Starts text.old text.new }
{
    match line {
        FlightLine::Frame { frame } => add_counted(text, b"frame ", *frame, b"\n"),
        FlightLine::FaultOf { frame } => add_counted(text, b"frame ", *frame, b" "),
        FlightLine::Count => text.word(b"fault L1\n"),
        FlightLine::Queues { frame } => add_counted(text, b"fault L2 ", *frame, b"\n"),
        FlightLine::Persist { frame, name } => {
            add_named(text, b"fault L3 ", *frame, name.as_bytes())
        }
        FlightLine::Window { window, limit } => {
            add_named(text, b"fault L4 ", *window, limit.name().as_bytes())
        }
    }
}

/// Adds a line, as `frame 0` or `fault L3 0 history`; without a line feed where a fault follows. Where there is no memory for
/// all of it, the text is as before.
pub fn flight_text(text: &mut Text, line: &FlightLine) -> Result<(), NoMemory>
    ensures ok { OnOk result (text.new ≡ text.old ++ flight_text line.now) }
    ensures err { OnErr result (text.new ≡ text.old) }
{
    let before = text.len();
    if add_line(text, line).is_err() {
        cut_back(text, before);
        return Err(NoMemory);
    }
    Ok(())
}
