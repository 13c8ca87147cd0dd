// Where the body of a reply starts.
ghost use Rattle.std.specs.Prelude.{◌≡◌};
ghost use Rattle.readers.specs.Reading.{body_of};

use frame::answer::Refusal;
use frame::command_identifier::CommandIdentifier;
use frame::header::{FrameType, read_header};

// The body of a global frame with a command. A manufacturer code is passed over.
#[tactic(auto, using(crate::proofs::Bodies::same_global), unfolding(crate::specs::Reading::body_of))]
pub(crate) fn body_of(frame: &[u8], command: CommandIdentifier) -> Result<usize, Refusal>
    ensures { result ≡ body_of command frame.now }
{
    let h = read_header(frame).ok_or(Refusal::HeaderShort)?;
    if h.frame_control.frame_type() != FrameType::GlobalCommand
        || h.command_identifier.0 != u8::from(command)
    {
        return Err(Refusal::NotSuchAReply);
    }
    Ok(h.body)
}
