// Read Attributes: an id at a time, a record of the reply for each, as long as they fit.
ghost use Rattle.std.specs.Prelude.{◌≡◌, length};
ghost use Rattle.frame.specs.Status.{status_code};
ghost use Rattle.frame.specs.Answer.{seen, no_state};
ghost use Rattle.frame.specs.Inside.Buffer.{putting, put};
ghost use Rattle.frame.specs.Inside.Shortened.{Turned, Walked};
ghost use Rattle.read.specs.Read.{id_at, value as value_record, failure, encode, record_for, read_of};
ghost use Rattle.read.specs.Inside.{item_of};

use frame::answer::{Answer, Refusal, refuse};
use frame::command_identifier::CommandIdentifier;
use frame::header::{ZclHeader, write_response_header};
use frame::reply::{clear, put_both, put_run};
use frame::status::Status;
use store::lookup::{find, name_of};
use store::value::value_of;
use types::ids::AttributeId;
use types::number::u16_at;

// The id at `at` and where the next one starts, if it is not cut.
fn next_id(body: &[u8], at: usize) -> Option<(AttributeId, usize)>
    ensures { item_of result ≡ id_at body.now at }
{
    if body.len() < 2 {
        return None;
    }
    if body.len() - 2 < at {
        return None;
    }
    Some((AttributeId(u16_at(body, at)), at + 2))
}

// Puts id and status.
#[tactic(auto, unfolding(crate::specs::Read::encode, types::specs::Number::bytes_of))]
fn put_failure(reply: &mut [u8], out: usize, id: AttributeId, why: Status) -> Option<usize>
    ensures { putting result reply.new ≡ put reply.old out (encode (failure id.0 (status_code why))) }
{
    let [low, high] = id.0.to_le_bytes();
    put_run(reply, out, &[low, high, u8::from(why)])
}

// Puts id, 00, type and value, if all of them fit.
#[tactic(auto, unfolding(crate::specs::Read::encode, types::specs::Number::bytes_of))]
fn put_value(reply: &mut [u8], out: usize, id: AttributeId, code: u8, value: &[u8]) -> Option<usize>
    ensures { putting result reply.new ≡ put reply.old out (encode (value_record id.0 code value.now)) }
{
    let [low, high] = id.0.to_le_bytes();
    put_both(reply, out, &[low, high, 0x00, code], value)
}

// One id: where an attribute is not found, the record is id and 86; otherwise its value, or 89 where that does not fit; none where
// not even id and status do.
fn read_turn(
    store: &[u8],
    request: ZclHeader,
    id: AttributeId,
    reply: &mut [u8],
    out: usize,
) -> Option<usize>
    ensures { Turned encode (record_for 8 store.now request) id.0 reply.old out result reply.new }
{
    let name = name_of(request.manufacturer_code, id);
    let Some(a) = find(store, name) else {
        return put_failure(reply, out, id, Status::UnsupportedAttribute);
    };
    let code = a.type_id;
    let Some(longer) = put_value(reply, out, id, code.0, value_of(store, a)) else {
        return put_failure(reply, out, id, Status::InsufficientSpace);
    };
    Some(longer)
}

// Every id of the body, behind a header that ends at `from`. The walk stops without error at the first record that does not fit.
fn read_records(
    store: &[u8],
    request: ZclHeader,
    body: &[u8],
    reply: &mut [u8],
    from: usize,
) -> Answer
    ensures { Walked encode (record_for 8 store.now request) (id_at body.now) (length body.now) reply.old from result reply.new }
{
    let mut at: usize = 0;
    let mut out = from;
    while at < body.len() {
        let Some((id, next)) = next_id(body, at) else {
            return refuse(reply, Refusal::RecordCut);
        };
        let Some(o) = read_turn(store, request, id, reply, out) else {
            return Ok(out);
        };
        at = next;
        out = o;
    }
    Ok(out)
}

// Read Attributes. The store may be any bytes; whoever serves a frame has checked it.
pub fn read_attributes(store: &[u8], request: ZclHeader, body: &[u8], reply: &mut [u8]) -> Answer
    ensures { seen result reply.new no_state ≡ read_of 8 store.now request body.now (length reply.old) }
{
    clear(reply);
    let from = write_response_header(
        reply,
        request,
        CommandIdentifier::ReadAttributesResponse,
    ).ok_or(Refusal::ReplyTooLong)?;
    read_records(store, request, body, reply, from)
}
