// Discover Attributes: the attributes from a start on, up to a maximum or the room, and whether these are all.
ghost use Rattle.std.specs.Prelude.{◌≡◌, ◌/◌, min, length};
ghost use Rattle.frame.specs.Answer.{seen, no_state};
ghost use Rattle.frame.specs.Inside.Buffer.{putting, put};
ghost use Rattle.discover.specs.Discover.{encode, discovered, discover_of};
ghost use Rattle.discover.specs.Inside.{Ends, Lists};

use frame::answer::{Answer, Refusal, refuse};
use frame::command_identifier::CommandIdentifier;
use frame::header::{ZclHeader, write_response_header};
use frame::reply::{clear, put_byte, put_run};
use store::lookup::{Attribute, Name, attribute_at, count_of, name_of};
use types::ids::AttributeId;
use types::number::{byte_at, u16_at};

// The size of a record of the reply: id and type.
const RECORD: usize = 3;

// What a scan has put, and where that ends: the records of all attributes at or after a name, or of as many as were wanted where there are more.
#[derive(Clone, Copy)]
enum Listing {
    All(usize),
    Part(usize),
}

// How many records are listed at most: the maximum, or as many as the room holds.
fn listed(maximum: u8, room: usize) -> usize
    ensures { result ≡ min maximum (room / 3) }
{
    (maximum as usize).min(room / RECORD)
}

// Puts id and type of an attribute.
#[tactic(auto, unfolding(crate::specs::Discover::encode, types::specs::Number::bytes_of))]
fn put_record(reply: &mut [u8], out: usize, a: Attribute) -> Option<usize>
    ensures { putting result reply.new ≡ put reply.old out (encode (discovered a)) }
{
    let [low, high, _, _] = a.name.0.to_le_bytes();
    put_run(reply, out, &[low, high, a.type_id.0])
}

// Puts the records of so many attributes at or after a name. One more ends the scan: there is no second one that counts them.
fn put_records(
    store: &[u8],
    start: Name,
    wanted: usize,
    reply: &mut [u8],
    from: usize,
) -> Option<Listing>
    ensures { Ends store.now start.0 wanted reply.old from result reply.new }
{
    let n = count_of(store);
    let mut left = wanted;
    let mut out = from;
    for i in 0..n {
        let a = attribute_at(store, i);
        let name = a.name;
        if start.0 <= name.0 {
            if left == 0 {
                return Some(Listing::Part(out));
            }
            out = put_record(reply, out, a)?;
            left -= 1;
        }
    }
    Some(Listing::All(out))
}

// Puts the complete byte and the records behind it. The byte is 1 until the scan has met an attribute that is left out.
fn put_list(
    store: &[u8],
    start: Name,
    wanted: usize,
    reply: &mut [u8],
    from: usize,
) -> Option<usize>
    ensures { Lists store.now start.0 wanted reply.old from result reply.new }
{
    let first = put_byte(reply, from, 1)?;
    match put_records(store, start, wanted, reply, first)? {
        Listing::All(out) => Some(out),
        Listing::Part(out) => {
            reply[from] = 0;
            Some(out)
        }
    }
}

// Discover Attributes. The store may be any bytes; whoever serves a frame has checked it.
pub fn discover_attributes(
    store: &[u8],
    request: ZclHeader,
    body: &[u8],
    reply: &mut [u8],
) -> Answer
    ensures { seen result reply.new no_state ≡ discover_of 8 store.now request body.now (length reply.old) }
{
    clear(reply);
    if body.len() < 3 {
        return Err(Refusal::RecordCut);
    }
    let start = name_of(request.manufacturer_code, AttributeId(u16_at(body, 0)));
    let from = write_response_header(
        reply,
        request,
        CommandIdentifier::DiscoverAttributesResponse,
    )
    .ok_or(Refusal::ReplyTooLong)?;
    if reply.len() <= from {
        return refuse(reply, Refusal::ReplyTooLong);
    }
    let wanted = listed(byte_at(body, 2), reply.len() - from - 1);
    let Some(out) = put_list(store, start, wanted, reply, from) else {
        return refuse(reply, Refusal::ReplyTooLong);
    };
    Ok(out)
}
