//! In which form a command answers.

ghost use Rattle.std.specs.Prelude.{◌≡◌};
ghost use Rattle.answer.specs.Forms.{form_of, frame_form, submission_form};

use cli::{Command, Form, FrameCommand, SubmissionCommand};

/// In which a command that reads a frame does.
pub(crate) fn frame_form(asked: FrameCommand) -> Form
    ensures { result ≡ frame_form asked }
{
    match asked {
        FrameCommand::Cull { form }
        | FrameCommand::Place { form }
        | FrameCommand::Bound { form }
        | FrameCommand::Cost { form } => form,
        FrameCommand::Compile { .. }
        | FrameCommand::Auto
        | FrameCommand::Meaning
        | FrameCommand::Migrate => Form::Line,
    }
}

/// In which a command that reads a submission does.
pub(crate) fn submission_form(asked: SubmissionCommand) -> Form
    ensures { result ≡ submission_form asked }
{
    match asked {
        SubmissionCommand::Check { form } => form,
    }
}

/// The form in which a command answers.
pub fn form_of(command: &Command) -> Form
    ensures { result ≡ form_of command.now }
{
    match command {
        Command::Frame(asked) => frame_form(*asked),
        Command::Submission(asked) => submission_form(*asked),
        Command::Gen { .. }
        | Command::Run { .. }
        | Command::Exec { .. }
        | Command::Summary { .. }
        | Command::Flight { .. }
        | Command::Audit => Form::Line,
    }
}
