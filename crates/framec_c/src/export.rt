//! Which commands C can call.

ghost use Rattle.std.specs.Prelude.{◌≡◌};
ghost use Rattle.framec_c.specs.Exports.{command_of};

use cli::{Command, Form, FrameCommand, SubmissionCommand};

/// A command that C can call.
#[derive(Clone, Copy, Debug, PartialEq, Eq)]
pub enum Export {
    Check,
    Cull,
    Place,
    Bound,
    Compile,
    Auto,
    Meaning,
    Migrate,
}

/// The command as a command line has it, without options.
pub fn command_of(export: Export) -> Command
    ensures { result ≡ command_of export }
{
    match export {
        Export::Check => Command::Submission(SubmissionCommand::Check { form: Form::Line }),
        Export::Cull => Command::Frame(FrameCommand::Cull { form: Form::Line }),
        Export::Place => Command::Frame(FrameCommand::Place { form: Form::Line }),
        Export::Bound => Command::Frame(FrameCommand::Bound { form: Form::Line }),
        Export::Compile => Command::Frame(FrameCommand::Compile { tight: false }),
        Export::Auto => Command::Frame(FrameCommand::Auto),
        Export::Meaning => Command::Frame(FrameCommand::Meaning),
        Export::Migrate => Command::Frame(FrameCommand::Migrate),
    }
}
