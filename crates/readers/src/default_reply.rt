// A Default Response (0b; ZCL 2.5.12): one record, so its check hands it out.
ghost use Rattle.std.specs.Prelude.{◌≡◌};
ghost use Rattle.readers.specs.Reading.{mapped};
ghost use Rattle.readers.specs.Replies.{default_response_of};
ghost use Rattle.readers.specs.Answers.{response_is};

use super::body::body_of;
use frame::answer::Refusal;
use frame::command_identifier::CommandIdentifier;
use types::ids::CommandId;

#[derive(Clone, Copy)]
pub struct DefaultReply {
    pub command: CommandId,
    pub status: u8,
}

// The command that it answers, and the status; bytes behind these are ignored.
#[tactic(auto, unfolding(crate::specs::Replies::default_response_of))]
pub fn read_default_response(frame: &[u8]) -> Result<DefaultReply, Refusal>
    ensures { mapped response_is result ≡ default_response_of frame.now }
{
    let from = body_of(frame, CommandIdentifier::DefaultResponse)?;
    if frame.len() <= from {
        return Err(Refusal::RecordCut);
    }
    if frame.len() - from < 2 {
        return Err(Refusal::RecordCut);
    }
    Ok(DefaultReply {
        command: CommandId(frame[from]),
        status: frame[from + 1],
    })
}
