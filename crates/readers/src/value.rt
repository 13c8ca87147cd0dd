// Where the value of a record lies in its frame, and its number.
ghost use Rattle.std.specs.Prelude.{◌≡◌, ◌+◌, ◌≤◌, length};
ghost use Rattle.readers.specs.Values.{value_in};

use super::pass::Span;
use types::ids::TypeId;
use types::number::byte_at;
use types::value::number_at;

#[derive(Clone, Copy)]
pub struct ValueIn {
    pub type_id: TypeId,
    pub start: usize,
    pub len: usize,
    pub number: Option<i64>,
}

// The value behind the type at p of a span. Not public: the record is in the frame and reaches behind its type.
#[tactic(auto, unfolding(crate::specs::Values::value_in))]
pub(crate) fn value_in(frame: &[u8], span: Span, p: usize) -> ValueIn
    requires { (p + 1 ≤ span.size) × (span.at + span.size ≤ length frame.now) }
    ensures { result ≡ value_in frame.now span p }
{
    let type_id = TypeId(byte_at(span.bytes_in(frame), p));
    let start = span.at + (p + 1);
    ValueIn {
        type_id,
        start,
        len: span.size - (p + 1),
        number: number_at(frame, start, type_id),
    }
}
