// The reply to Write Attributes and Write Attributes Undivided (04; ZCL 2.5.4).
ghost use Rattle.std.specs.Prelude.{◌≡◌};
ghost use Rattle.readers.specs.Reading.{counted, kth};
ghost use Rattle.readers.specs.Replies.{write_reply_of};
ghost use Rattle.readers.specs.Answers.{write_record_is, record_is};

use super::layout::Layout;
use super::pass::sweep_failures;
use frame::answer::Refusal;
use frame::command_identifier::CommandIdentifier;
use types::ids::AttributeId;
use types::number::{byte_at, u16_at};

#[derive(Clone, Copy)]
pub struct WriteReplyFailure {
    pub status: u8,
    pub id: AttributeId,
}

// How many failures the reply lists; none is success.
#[tactic(auto, using(crate::proofs::Records::told_records), unfolding(crate::specs::Replies::write_reply_of))]
pub fn check_write_reply(frame: &[u8]) -> Result<usize, Refusal>
    ensures { result ≡ counted (write_reply_of frame.now) }
{
    let swept = sweep_failures(
        frame,
        CommandIdentifier::WriteAttributesResponse,
        Layout::WriteFailure,
        0,
    )?;
    Ok(swept.count)
}

// Failure k of the reply, if it lists so many.
#[tactic(auto, using(crate::proofs::Records::told_records, crate::proofs::SpanSizes::failure_within), unfolding(crate::specs::Replies::write_reply_of, crate::specs::Replies::write_failure))]
pub fn write_reply_record(frame: &[u8], k: usize) -> Result<Option<WriteReplyFailure>, Refusal>
    ensures { record_is write_record_is result ≡ kth k (write_reply_of frame.now) }
{
    let swept = sweep_failures(
        frame,
        CommandIdentifier::WriteAttributesResponse,
        Layout::WriteFailure,
        k,
    )?;
    let Some(span) = swept.kth else {
        return Ok(None);
    };
    let part = span.bytes_in(frame);
    Ok(Some(WriteReplyFailure {
        status: byte_at(part, 0),
        id: AttributeId(u16_at(part, 1)),
    }))
}
