// The reply to Discover Attributes (0d; ZCL 2.5.14).
ghost use Rattle.std.specs.Prelude.{◌≡◌};
ghost use Rattle.readers.specs.Reading.{kth, mapped};
ghost use Rattle.readers.specs.Replies.{discovered_from, discovery_at, discover_reply_of};
ghost use Rattle.readers.specs.Inside.{swept};
ghost use Rattle.readers.specs.Answers.{discovery_is, discover_record_is, record_is, sized, attributes_in};

use super::body::body_of;
use super::layout::Layout;
use super::pass::{Swept, sweep};
use frame::answer::Refusal;
use frame::command_identifier::CommandIdentifier;
use types::ids::{AttributeId, TypeId};
use types::number::{byte_at, u16_at};

// Whether the list is complete, 1 or 0, and how many attributes it has.
#[derive(Clone, Copy)]
pub struct DiscoverReply {
    pub complete: u8,
    pub count: usize,
}

#[derive(Clone, Copy)]
pub struct DiscoverReplyRecord {
    pub id: AttributeId,
    pub type_id: TypeId,
}

// The records behind a complete byte, which is met before any trouble with them.
#[tactic(auto, unfolding(crate::specs::Replies::discovered_from))]
fn sweep_discovered(frame: &[u8], from: usize, k: usize) -> Result<Swept, Refusal>
    ensures { result ≡ swept k (discovered_from frame.now from) }
{
    if frame.len() <= from {
        return Err(Refusal::RecordCut);
    }
    if 1 < frame[from] {
        return Err(Refusal::NotSuchAReply);
    }
    sweep(frame, from + 1, Layout::Discovered, k)
}

// Whether the list is complete, and how many attributes it has.
#[tactic(auto, using(crate::proofs::Discoveries::sized_is, crate::proofs::Discoveries::no_size, crate::proofs::Discoveries::unread))]
pub fn check_discover_reply(frame: &[u8]) -> Result<DiscoverReply, Refusal>
    ensures { mapped discovery_is result ≡ sized (discover_reply_of frame.now) }
{
    let from = body_of(frame, CommandIdentifier::DiscoverAttributesResponse)?;
    let swept = sweep_discovered(frame, from, 0)?;
    Ok(DiscoverReply {
        complete: byte_at(frame, from),
        count: swept.count,
    })
}

// Attribute k behind the complete byte at `from`.
#[tactic(auto, using(crate::proofs::Records::told_records, crate::proofs::SpanSizes::discovered_within), unfolding(crate::specs::Replies::discovered_record))]
fn discovered_at(
    frame: &[u8],
    from: usize,
    k: usize,
) -> Result<Option<DiscoverReplyRecord>, Refusal>
    ensures { record_is discover_record_is result ≡ kth k (attributes_in (discovery_at frame.now from)) }
{
    let swept = sweep_discovered(frame, from, k)?;
    let Some(span) = swept.kth else {
        return Ok(None);
    };
    let part = span.bytes_in(frame);
    Ok(Some(DiscoverReplyRecord {
        id: AttributeId(u16_at(part, 0)),
        type_id: TypeId(byte_at(part, 2)),
    }))
}

// Attribute k of the reply, if it has so many.
#[tactic(auto, unfolding(crate::specs::Replies::discover_reply_of))]
pub fn discover_reply_record(frame: &[u8], k: usize) -> Result<Option<DiscoverReplyRecord>, Refusal>
    ensures { record_is discover_record_is result ≡ kth k (attributes_in (discover_reply_of frame.now)) }
{
    let from = body_of(frame, CommandIdentifier::DiscoverAttributesResponse)?;
    discovered_at(frame, from, k)
}
