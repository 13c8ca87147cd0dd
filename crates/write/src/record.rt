// The records of a write request.
ghost use Rattle.std.specs.Prelude.{◌≡◌};
ghost use Rattle.write.specs.Request.{record_at};
ghost use Rattle.write.specs.Inside.{item_of};

use types::extent::extent_at;
use types::ids::{AttributeId, TypeId};
use types::number::u16_at;

// A record, of which the value starts three bytes behind its start.
#[derive(Clone, Copy)]
pub(crate) struct Record {
    pub(crate) id: AttributeId,
    pub(crate) type_id: TypeId,
    pub(crate) end: usize,
}

// The record at a place: id, type, value. A value without extent cannot be read either.
pub(crate) fn next_record(body: &[u8], at: usize) -> Option<Record>
    ensures { item_of body.now at result ≡ record_at body.now at }
{
    if body.len() < at || body.len() - at < 3 {
        return None;
    }
    let type_id = TypeId(body[at + 2]);
    let end = extent_at(body, at + 3, type_id).ok()?;
    let id = AttributeId(u16_at(body, at));
    Some(Record { id, type_id, end })
}
