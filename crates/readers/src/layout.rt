// How long a record of a reply is, by its first bytes.
ghost use Rattle.std.specs.Prelude.{◌≡◌};
ghost use Rattle.readers.specs.Layout.{up_to, valued, failure_length, length_of};

use configure::change::change_width;
use frame::answer::Refusal;
use types::extent::extent_at;
use types::ids::TypeId;
use types::number::byte_at;

#[derive(Clone, Copy)]
pub(crate) enum Layout {
    // Id, status, and on success type and value.
    ReadStatus,
    // Id, type and value.
    Report,
    // Status, other than 00, and id.
    WriteFailure,
    // Status, other than 00, direction and id.
    ConfigureFailure,
    // Status, direction, id, and on success type, minimum, maximum and change.
    Setting,
    // Id and type.
    Discovered,
}

// n bytes, if they are there.
#[tactic(auto, unfolding(crate::specs::Layout::up_to))]
fn up_to(rest: &[u8], n: usize) -> Result<usize, Refusal>
    ensures { result ≡ up_to n rest.now }
{
    if n <= rest.len() {
        return Ok(n);
    }
    Err(Refusal::RecordCut)
}

// A type at p, and a value behind it.
#[tactic(auto, unfolding(crate::specs::Layout::valued))]
fn valued_record(rest: &[u8], p: usize) -> Result<usize, Refusal>
    ensures { result ≡ valued p rest.now }
{
    if rest.len() <= p {
        return Err(Refusal::RecordCut);
    }
    extent_at(rest, p + 1, TypeId(rest[p])).map_err(|_| Refusal::RecordCut)
}

// A record of a read reply.
#[tactic(auto, unfolding(crate::specs::Layout::length_of))]
fn read_status_record(rest: &[u8]) -> Result<usize, Refusal>
    ensures { result ≡ length_of Layout.ReadStatus rest.now }
{
    if rest.len() < 3 {
        return Err(Refusal::RecordCut);
    }
    if rest[2] != 0 {
        return Ok(3);
    }
    valued_record(rest, 3)
}

// A failure of n bytes: 00 is met before a cut.
#[tactic(auto, unfolding(crate::specs::Layout::failure_length))]
fn failure_record(rest: &[u8], n: usize) -> Result<usize, Refusal>
    ensures { result ≡ failure_length n rest.now }
{
    if byte_at(rest, 0) == 0 {
        return Err(Refusal::NotSuchAReply);
    }
    up_to(rest, n)
}

// A record of a read configuration reply.
#[tactic(auto, using(configure::proofs::Widths::width_least), unfolding(crate::specs::Layout::length_of))]
fn setting_record(rest: &[u8]) -> Result<usize, Refusal>
    ensures { result ≡ length_of Layout.Setting rest.now }
{
    if rest.len() < 4 {
        return Err(Refusal::RecordCut);
    }
    if rest[0] != 0 {
        return Ok(4);
    }
    up_to(rest, 9 + change_width(TypeId(byte_at(rest, 4))))
}

// How long the record is that some bytes begin with.
#[tactic(auto, unfolding(crate::specs::Layout::length_of))]
pub(crate) fn record_length(rest: &[u8], layout: Layout) -> Result<usize, Refusal>
    ensures { result ≡ length_of layout rest.now }
{
    match layout {
        Layout::ReadStatus => read_status_record(rest),
        Layout::Report => valued_record(rest, 2),
        Layout::WriteFailure => failure_record(rest, 3),
        Layout::ConfigureFailure => failure_record(rest, 4),
        Layout::Setting => setting_record(rest),
        Layout::Discovered => up_to(rest, 3),
    }
}
