// The three commands.
ghost use Rattle.std.specs.Prelude.{◌≡◌, length};
ghost use Rattle.frame.specs.Answer.{seen};
ghost use Rattle.write.specs.Write.{write_attributes, write_undivided, write_silently};
ghost use Rattle.write.specs.Inside.{is_clean};

use super::pass::{apply_write_records, check, pass_records};
use frame::answer::{Answer, Refusal, refuse};
use frame::command_identifier::CommandIdentifier;
use frame::failures::{Unfinished, conclude};
use frame::header::{ZclHeader, begin_reply};
use store::write::write;

// Whether a pass took every record and listed none of them.
fn is_clean(done: Result<usize, Unfinished>, start: usize) -> bool
    ensures { result ≡ is_clean done start }
{
    matches!(done, Ok(out) if out == start)
}

// Write Attributes.
pub fn write_attributes(
    store: &mut [u8],
    request: ZclHeader,
    body: &[u8],
    reply: &mut [u8],
) -> Answer
    ensures { seen result reply.new store.new ≡ write_attributes 8 store.old request body.now (length reply.old) }
{
    let begun = begin_reply(reply, request, CommandIdentifier::WriteAttributesResponse);
    let start = begun.ok_or(Refusal::ReplyTooLong)?;
    let done = pass_records(store, write, request, body, reply, start);
    conclude(reply, start, done)
}

// Write Attributes Undivided: the checks first, and the writes only where none of them failed, so that none can fail any more.
pub fn write_attributes_undivided(
    store: &mut [u8],
    request: ZclHeader,
    body: &[u8],
    reply: &mut [u8],
) -> Answer
    ensures { seen result reply.new store.new ≡ write_undivided 8 store.old request body.now (length reply.old) }
{
    let begun = begin_reply(reply, request, CommandIdentifier::WriteAttributesResponse);
    let start = begun.ok_or(Refusal::ReplyTooLong)?;
    let first = pass_records(store, check, request, body, reply, start);
    if is_clean(first, start) {
        apply_write_records(store, request, body);
    }
    conclude(reply, start, first)
}

// Write Attributes No Response.
pub fn write_attributes_no_response(
    store: &mut [u8],
    request: ZclHeader,
    body: &[u8],
    reply: &mut [u8],
) -> Answer
    ensures { seen result reply.new store.new ≡ write_silently 8 store.old request body.now (length reply.old) }
{
    apply_write_records(store, request, body);
    refuse(reply, Refusal::NothingToSend)
}
