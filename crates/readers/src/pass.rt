// One pass over the records of a reply: how many there are, and where record k lies, if the whole can be read.
ghost use Rattle.std.specs.Prelude.{◌≡◌, ◌+◌, ◌≤◌, length};
ghost use Rattle.readers.specs.Layout.{length_of};
ghost use Rattle.readers.specs.Reading.{cut_out, spans_from};
ghost use Rattle.readers.specs.Replies.{spans_of, failures_from, failures_of};
ghost use Rattle.readers.specs.Inside.{swept};

use super::body::body_of;
use super::layout::{Layout, record_length};
use frame::answer::Refusal;
use frame::command_identifier::CommandIdentifier;

// Where a record lies in its frame.
#[derive(Clone, Copy)]
pub(crate) struct Span {
    pub at: usize,
    pub size: usize,
}

impl Span {
    // The record's bytes.
    pub(crate) fn bytes_in(self, frame: &[u8]) -> &[u8]
        requires { self.at + self.size ≤ length frame.now }
        ensures { result.now ≡ cut_out frame.now self }
    {
        &frame[self.at..self.at + self.size]
    }
}

// How many records a reply has, and where record k lies, if there are more than k.
#[derive(Clone, Copy)]
pub(crate) struct Swept {
    pub count: usize,
    pub kth: Option<Span>,
}

// The records from `from` to the frame's end.
pub(crate) fn sweep(frame: &[u8], from: usize, layout: Layout, k: usize) -> Result<Swept, Refusal>
    ensures { result ≡ swept k (spans_from (length_of layout) frame.now from) }
{
    let mut at = from;
    let mut count: usize = 0;
    let mut kth = None;
    while at < frame.len() {
        let size = record_length(&frame[at..], layout)?;
        if count == k {
            kth = Some(Span { at, size });
        }
        at += size;
        count += 1;
    }
    Ok(Swept { count, kth })
}

// A reply that is nothing but records.
#[tactic(auto, unfolding(crate::specs::Replies::spans_of))]
pub(crate) fn sweep_records(
    frame: &[u8],
    command: CommandIdentifier,
    layout: Layout,
    k: usize,
) -> Result<Swept, Refusal>
    ensures { result ≡ swept k (spans_of command layout frame.now) }
{
    let from = body_of(frame, command)?;
    sweep(frame, from, layout, k)
}

// A reply's body that lists failures: one byte 00 is success, an empty one is cut.
#[tactic(auto, unfolding(crate::specs::Replies::failures_from))]
fn sweep_failures_from(
    frame: &[u8],
    from: usize,
    layout: Layout,
    k: usize,
) -> Result<Swept, Refusal>
    ensures { result ≡ swept k (failures_from layout frame.now from) }
{
    if frame.len() <= from {
        return Err(Refusal::RecordCut);
    }
    if frame[from..] == [0] {
        return Ok(Swept {
            count: 0,
            kth: None,
        });
    }
    sweep(frame, from, layout, k)
}

// A reply that lists failures.
#[tactic(auto, unfolding(crate::specs::Replies::failures_of))]
pub(crate) fn sweep_failures(
    frame: &[u8],
    command: CommandIdentifier,
    layout: Layout,
    k: usize,
) -> Result<Swept, Refusal>
    ensures { result ≡ swept k (failures_of command layout frame.now) }
{
    let from = body_of(frame, command)?;
    sweep_failures_from(frame, from, layout, k)
}
