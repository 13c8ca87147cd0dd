// Read Reporting Configuration: a record of the reply for each that was asked, as long as they fit.
ghost use Rattle.std.specs.Prelude.{◌≡◌, length, Ok, Option};
ghost use Rattle.frame.specs.Status.{status_code};
ghost use Rattle.frame.specs.Answer.{seen, no_state};
ghost use Rattle.frame.specs.Inside.Buffer.{putting, put};
ghost use Rattle.reporting.specs.declared.entry.Entry.{Entry};
ghost use Rattle.reporting.specs.Table.{holding, setting_told, setting_o};
ghost use Rattle.reporting.specs.Carried.{table_in};
ghost use Rattle.configure.specs.Request.{asked, asked_at};
ghost use Rattle.configure.specs.Configuration.{setting, failure, encode, sent_as, setting_by, configuration_of};
ghost use Rattle.configure.specs.Inside.{asked_item, Answered, AllAnswered};

use super::change::change_width;
use super::seek::seek;
use frame::answer::{Answer, Refusal, refuse};
use frame::command_identifier::CommandIdentifier;
use frame::header::{ZclHeader, write_response_header};
use frame::reply::{clear, put_run};
use frame::status::Status;
use reporting::entry::ReportingConfig;
use reporting::held::TableRef;
use types::ids::{AttributeId, TypeId};
use types::number::{byte_at, le_bytes, u16_at};

// What is asked, and where the next one starts.
#[derive(Clone, Copy)]
struct Asked {
    direction: u8,
    id: AttributeId,
    end: usize,
}

// The direction and id at `at`, if they are not cut.
#[tactic(auto, using(crate::proofs::Asked::asked_cut, crate::proofs::Asked::asked_here))]
fn next_asked(body: &[u8], at: usize) -> Option<Asked>
    ensures { asked_item result ≡ asked_at body.now at }
{
    if body.len() < 3 {
        return None;
    }
    if body.len() - 3 < at {
        return None;
    }
    Some(Asked {
        direction: byte_at(body, at),
        id: AttributeId(u16_at(body, at + 1)),
        end: at + 3,
    })
}

// Puts status, direction and id.
#[tactic(auto, unfolding(crate::specs::Configuration::encode, types::specs::Number::bytes_of))]
fn put_failure(
    reply: &mut [u8],
    out: usize,
    why: Status,
    direction: u8,
    id: AttributeId,
) -> Option<usize>
    ensures { putting result reply.new ≡ put reply.old out (encode (failure (status_code why) direction id.0)) }
{
    let [low, high] = id.0.to_le_bytes();
    let four = [u8::from(why), direction, low, high];
    put_run(reply, out, &four)
}

// Puts a configuration, its change cut to the width of its type. One run, so that nothing half-written ever stands.
fn put_setting(
    reply: &mut [u8],
    out: usize,
    direction: u8,
    id: AttributeId,
    type_id: TypeId,
    config: ReportingConfig,
) -> Option<usize>
    ensures { putting result reply.new ≡ put reply.old out (encode (setting direction id.0 type_id.0 (sent_as type_id.0 config))) }
{
    let [id_low, id_high] = id.0.to_le_bytes();
    let [min_low, min_high] = config.min_interval.to_le_bytes();
    let [max_low, max_high] = config.max_interval.to_le_bytes();
    let [c0, c1, c2, c3, c4, c5, c6, c7] = le_bytes(config.reportable_change);
    let all = [
        0x00, direction, id_low, id_high, type_id.0, min_low, min_high, max_low, max_high, c0, c1,
        c2, c3, c4, c5, c6, c7,
    ];
    let end = 9 + change_width(type_id);
    put_run(reply, out, &all[..end])
}

// Puts what the table gives: 8b where that is nothing.
fn put_found(
    reply: &mut [u8],
    out: usize,
    direction: u8,
    id: AttributeId,
    type_id: TypeId,
    setting: Option<ReportingConfig>,
) -> Option<usize>
    ensures { (o : Option Entry) → setting_told (Ok setting) ≡ setting_o o → putting result reply.new ≡ put reply.old out (encode (setting_by o (asked direction id.0) type_id.0)) }
{
    let Some(config) = setting else {
        return put_failure(reply, out, Status::NotFound, direction, id);
    };
    put_setting(reply, out, direction, id, type_id, config)
}

// One that is asked: a failure, or what the table gives.
fn configuration_turn(
    store: &[u8],
    table: TableRef<'_>,
    request: ZclHeader,
    direction: u8,
    id: AttributeId,
    reply: &mut [u8],
    out: usize,
) -> Option<usize>
    ensures { Answered store.now (table_in table.entry.bytes.now) request direction id.0 reply.old out result reply.new }
{
    match seek(store, request, direction, id) {
        Err(why) => put_failure(reply, out, why, direction, id),
        Ok((key, type_id)) => {
            let setting = table.configuration(key);
            put_found(reply, out, direction, id, type_id, setting)
        }
    }
}

// Every record of the body, behind a header that ends at `from`. The walk stops without error at the first record that does not fit.
fn configuration_records(
    store: &[u8],
    table: TableRef<'_>,
    request: ZclHeader,
    body: &[u8],
    reply: &mut [u8],
    from: usize,
) -> Answer
    ensures { AllAnswered store.now (table_in table.entry.bytes.now) request body.now reply.old from result reply.new }
{
    let mut at: usize = 0;
    let mut out = from;
    while at < body.len() {
        let Some(asked) = next_asked(body, at) else {
            return refuse(reply, Refusal::RecordCut);
        };
        let put = configuration_turn(store, table, request, asked.direction, asked.id, reply, out);
        let Some(next) = put else {
            return Ok(out);
        };
        at = asked.end;
        out = next;
    }
    Ok(out)
}

// Read Reporting Configuration, from the bytes that carry the table. The store may be any bytes. Public for crate `server` alone, no entry
// point: whoever serves a frame has checked the store.
pub fn read_reporting_configuration(
    store: &[u8],
    table: TableRef<'_>,
    request: ZclHeader,
    body: &[u8],
    reply: &mut [u8],
) -> Answer
    ensures { seen result reply.new no_state ≡ configuration_of 8 store.now (holding (table_in table.entry.bytes.now)) request body.now (length reply.old) }
{
    clear(reply);
    let from = write_response_header(
        reply,
        request,
        CommandIdentifier::ReadReportingConfigurationResponse,
    )
    .ok_or(Refusal::ReplyTooLong)?;
    configuration_records(store, table, request, body, reply, from)
}
