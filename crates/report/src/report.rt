// The Report Attributes frame (`AttributeReportBuilder` in the Rust; ZCL 2.5.11): a record for each id of a lent list, in its order.
ghost use Rattle.std.specs.Prelude.{◌≡◌, length};
ghost use Rattle.frame.specs.Answer.{seen, no_state};
ghost use Rattle.frame.specs.Inside.Buffer.{putting, put};
ghost use Rattle.report.specs.Report.{encode, report_record, unasked as unasked_header, report_of};
ghost use Rattle.report.specs.Inside.Report.{Reports, ReportsAll};

use frame::answer::{Answer, Refusal, refuse};
use frame::command_identifier::CommandIdentifier;
use frame::header::{FrameControl, ManufacturerCode, ZclHeader, write_response_header};
use frame::reply::{clear, put_both};
use store::layout::is_store;
use store::lookup::{find, is_reportable, name_of};
use store::value::value_of;
use types::ids::{AttributeId, CommandId};

// Puts id, type and value.
#[tactic(auto, unfolding(crate::specs::Report::encode, types::specs::Number::bytes_of))]
pub(crate) fn put_record(
    frame: &mut [u8],
    out: usize,
    id: AttributeId,
    code: u8,
    value: &[u8],
) -> Option<usize>
    ensures { putting result frame.new ≡ put frame.old out (encode (report_record id.0 code value.now)) }
{
    let [low, high] = id.0.to_le_bytes();
    put_both(frame, out, &[low, high, code], value)
}

// One id: a frame longer by its record; a refusal where it is missing or not reportable, or where its record does not fit.
fn report_one(store: &[u8], id: AttributeId, frame: &mut [u8], out: usize) -> Answer
    ensures { Reports store.now id.0 frame.old out result frame.new }
{
    let name = name_of(ManufacturerCode(0), id);
    let Some(a) = find(store, name) else {
        return refuse(frame, Refusal::NotReportable);
    };
    if !is_reportable(a) {
        return refuse(frame, Refusal::NotReportable);
    }
    let code = a.type_id;
    let Some(longer) = put_record(frame, out, id, code.0, value_of(store, a)) else {
        return refuse(frame, Refusal::ReplyTooLong);
    };
    Ok(longer)
}

// Every id of the list, behind a header that ends at `from`. The first trouble met counts.
fn report_records(store: &[u8], ids: &[u16], frame: &mut [u8], from: usize) -> Answer
    ensures { ReportsAll store.now ids.now frame.old from result frame.new }
{
    let mut out = from;
    for &id in ids {
        out = report_one(store, AttributeId(id), frame, out)?;
    }
    Ok(out)
}

// A report answers no request: its header is as that of a reply to this sequence number.
pub(crate) fn unasked(sequence: u8) -> ZclHeader
    ensures { result ≡ unasked_header sequence }
{
    ZclHeader {
        frame_control: FrameControl(0),
        manufacturer_code: ManufacturerCode(0),
        sequence_number: sequence,
        command_identifier: CommandId(0),
        body: 0,
    }
}

// A Report Attributes frame of these attributes.
pub fn report(store: &[u8], sequence: u8, ids: &[u16], frame: &mut [u8]) -> Answer
    ensures { seen result frame.new no_state ≡ report_of 8 store.now sequence ids.now (length frame.old) }
{
    if !is_store(store) {
        return refuse(frame, Refusal::NotAStore);
    }
    clear(frame);
    let request = unasked(sequence);
    let from = write_response_header(frame, request, CommandIdentifier::ReportAttributes).ok_or(
        Refusal::ReplyTooLong,
    )?;
    if ids.len() == 0 {
        return refuse(frame, Refusal::EmptyReport);
    }
    report_records(store, ids, frame, from)
}
