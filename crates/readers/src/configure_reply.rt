// The reply to Configure Reporting (07; ZCL 2.5.8).
ghost use Rattle.std.specs.Prelude.{◌≡◌};
ghost use Rattle.readers.specs.Reading.{counted, kth};
ghost use Rattle.readers.specs.Replies.{configure_reply_of};
ghost use Rattle.readers.specs.Answers.{configure_record_is, record_is};

use super::layout::Layout;
use super::pass::sweep_failures;
use frame::answer::Refusal;
use frame::command_identifier::CommandIdentifier;
use types::ids::AttributeId;
use types::number::{byte_at, u16_at};

#[derive(Clone, Copy)]
pub struct ConfigureReplyFailure {
    pub status: u8,
    pub direction: u8,
    pub id: AttributeId,
}

// How many failures the reply lists; none is success.
#[tactic(auto, using(crate::proofs::Records::told_records), unfolding(crate::specs::Replies::configure_reply_of))]
pub fn check_configure_reply(frame: &[u8]) -> Result<usize, Refusal>
    ensures { result ≡ counted (configure_reply_of frame.now) }
{
    let swept = sweep_failures(
        frame,
        CommandIdentifier::ConfigureReportingResponse,
        Layout::ConfigureFailure,
        0,
    )?;
    Ok(swept.count)
}

// Failure k of the reply, if it lists so many.
#[tactic(auto, using(crate::proofs::Records::told_records, crate::proofs::SpanSizes::failure_within), unfolding(crate::specs::Replies::configure_reply_of, crate::specs::Replies::configure_failure))]
pub fn configure_reply_record(
    frame: &[u8],
    k: usize,
) -> Result<Option<ConfigureReplyFailure>, Refusal>
    ensures { record_is configure_record_is result ≡ kth k (configure_reply_of frame.now) }
{
    let swept = sweep_failures(
        frame,
        CommandIdentifier::ConfigureReportingResponse,
        Layout::ConfigureFailure,
        k,
    )?;
    let Some(span) = swept.kth else {
        return Ok(None);
    };
    let part = span.bytes_in(frame);
    Ok(Some(ConfigureReplyFailure {
        status: byte_at(part, 0),
        direction: byte_at(part, 1),
        id: AttributeId(u16_at(part, 2)),
    }))
}
