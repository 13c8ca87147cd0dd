// The reply to Read Attributes (01; ZCL 2.5.2).
ghost use Rattle.std.specs.Prelude.{◌≡◌};
ghost use Rattle.readers.specs.Reading.{counted, kth};
ghost use Rattle.readers.specs.Replies.{read_reply_of};
ghost use Rattle.readers.specs.Values.{read_reply_held};
ghost use Rattle.readers.specs.Answers.{read_record_is, record_is};

use super::layout::Layout;
use super::pass::sweep_records;
use super::value::{ValueIn, value_in};
use frame::answer::Refusal;
use frame::command_identifier::CommandIdentifier;
use types::ids::AttributeId;
use types::number::{byte_at, u16_at};

#[derive(Clone, Copy)]
pub enum ReadReplyRecord {
    Value { id: AttributeId, value: ValueIn },
    Failure { id: AttributeId, status: u8 },
}

// How many records the reply has.
#[tactic(auto, using(crate::proofs::Records::told_records), unfolding(crate::specs::Replies::read_reply_of))]
pub fn check_read_reply(frame: &[u8]) -> Result<usize, Refusal>
    ensures { result ≡ counted (read_reply_of frame.now) }
{
    let swept = sweep_records(
        frame,
        CommandIdentifier::ReadAttributesResponse,
        Layout::ReadStatus,
        0,
    )?;
    Ok(swept.count)
}

// Record k of the reply, if it has so many, with where its value lies and the value's number.
#[tactic(auto, using(crate::proofs::Records::past, crate::proofs::Records::lost, crate::proofs::SpanSizes::span_within), unfolding(crate::specs::Values::read_reply_held))]
pub fn read_reply_record(frame: &[u8], k: usize) -> Result<Option<ReadReplyRecord>, Refusal>
    ensures { record_is (read_record_is frame.now) result ≡ kth k (read_reply_held frame.now) }
{
    let swept = sweep_records(
        frame,
        CommandIdentifier::ReadAttributesResponse,
        Layout::ReadStatus,
        k,
    )?;
    let Some(span) = swept.kth else {
        return Ok(None);
    };
    let part = span.bytes_in(frame);
    let id = AttributeId(u16_at(part, 0));
    let status = byte_at(part, 2);
    if status != 0 {
        return Ok(Some(ReadReplyRecord::Failure { id, status }));
    }
    let value = value_in(frame, span, 3);
    Ok(Some(ReadReplyRecord::Value { id, value }))
}
