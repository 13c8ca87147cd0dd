// Configure Reporting.
ghost use Rattle.std.specs.Prelude.{◌≡◌, length};
ghost use Rattle.frame.specs.Answer.{seen};
ghost use Rattle.reporting.specs.Table.{capacity, holding};
ghost use Rattle.reporting.specs.Carried.{table_in};
ghost use Rattle.configure.specs.Configure.{configure_of};

use super::pass::configure_records;
use frame::answer::{Answer, Refusal, refuse};
use frame::command_identifier::CommandIdentifier;
use frame::failures::conclude;
use frame::header::{ZclHeader, begin_reply};
use reporting::held::TableMut;

// Configure Reporting, on the bytes that carry the table. The store may be any bytes. Public for crate `server` alone, no entry point: whoever
// serves a frame has checked the store.
pub fn configure_reporting(
    store: &[u8],
    table: &mut TableMut<'_>,
    request: ZclHeader,
    body: &[u8],
    reply: &mut [u8],
) -> Answer
    ensures same_reference { table.new.bytes.ghost_name ≡ table.old.bytes.ghost_name }
    ensures answered { seen result reply.new (holding (table_in table.new.bytes.now)) ≡ configure_of 8 capacity store.now (holding (table_in table.old.bytes.now)) request body.now (length reply.old) }
{
    let begun = begin_reply(
        reply,
        request,
        CommandIdentifier::ConfigureReportingResponse,
    );
    let Some(start) = begun else {
        return refuse(reply, Refusal::ReplyTooLong);
    };
    let done = configure_records(store, table, request, body, reply, start);
    conclude(reply, start, done)
}
