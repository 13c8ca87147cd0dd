// A Report Attributes frame (0a; ZCL 2.5.11).
ghost use Rattle.std.specs.Prelude.{◌≡◌};
ghost use Rattle.readers.specs.Reading.{counted, kth};
ghost use Rattle.readers.specs.Replies.{report_frame_of};
ghost use Rattle.readers.specs.Values.{report_frame_held};
ghost use Rattle.readers.specs.Answers.{report_record_is, record_is};

use super::layout::Layout;
use super::pass::sweep_records;
use super::value::{ValueIn, value_in};
use frame::answer::Refusal;
use frame::command_identifier::CommandIdentifier;
use types::ids::AttributeId;
use types::number::u16_at;

#[derive(Clone, Copy)]
pub struct ReportFrameRecord {
    pub id: AttributeId,
    pub value: ValueIn,
}

// How many records the frame has.
#[tactic(auto, using(crate::proofs::Records::told_records), unfolding(crate::specs::Replies::report_frame_of))]
pub fn check_report_frame(frame: &[u8]) -> Result<usize, Refusal>
    ensures { result ≡ counted (report_frame_of frame.now) }
{
    let swept = sweep_records(
        frame,
        CommandIdentifier::ReportAttributes,
        Layout::Report,
        0,
    )?;
    Ok(swept.count)
}

// Record k of the frame, if it has so many, with where its value lies and the value's number.
#[tactic(auto, using(crate::proofs::Records::past, crate::proofs::Records::lost, crate::proofs::SpanSizes::span_within), unfolding(crate::specs::Values::report_frame_held))]
pub fn report_frame_record(frame: &[u8], k: usize) -> Result<Option<ReportFrameRecord>, Refusal>
    ensures { record_is (report_record_is frame.now) result ≡ kth k (report_frame_held frame.now) }
{
    let swept = sweep_records(
        frame,
        CommandIdentifier::ReportAttributes,
        Layout::Report,
        k,
    )?;
    let Some(span) = swept.kth else {
        return Ok(None);
    };
    let part = span.bytes_in(frame);
    Ok(Some(ReportFrameRecord {
        id: AttributeId(u16_at(part, 0)),
        value: value_in(frame, span, 2),
    }))
}
