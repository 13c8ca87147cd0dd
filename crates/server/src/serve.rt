// A request dispatched: the checks, then the frame by its type, and a global command by its number. All of it works on the bytes that carry the
// reporting table; a table by value is laid out as such bytes first.
ghost use Rattle.std.specs.Prelude.{◌≡◌, true, length};
ghost use Rattle.frame.specs.Answer.{seen};
ghost use Rattle.frame.specs.Header.{frame_type_of};
ghost use Rattle.frame.specs.CommandIdentifier.{command_of};
ghost use Rattle.reporting.specs.Table.{capacity, table_of, holding};
ghost use Rattle.reporting.specs.Carried.{is_table, table_in};
ghost use Rattle.reporting.specs.Lent.{quieted_t};
ghost use Rattle.server.specs.Serve.{state, commanded, typed, serve};
ghost use Rattle.server.specs.Lent.{lent, serve_lent};
ghost use Rattle.server.specs.Inside.{OverBytes};

use super::default_response::default_response;
use configure::configuration::read_reporting_configuration;
use configure::configure::configure_reporting;
use discover::attributes::discover_attributes;
use frame::answer::{Answer, Refusal, refuse};
use frame::command_identifier::CommandIdentifier;
use frame::header::{FrameType, ZclHeader, read_header};
use frame::status::Status;
use read::attributes::read_attributes;
use reporting::carried::{TABLE_BYTES, is_table, read_table, write_table};
use reporting::held::TableMut;
use reporting::table::ReportingTable;
use store::layout::is_store;
use store::lookup::cluster_of;
use types::ids::ClusterId;
use write::attributes::{
    write_attributes, write_attributes_no_response, write_attributes_undivided,
};

// An answer, and the table as it is afterwards.
#[derive(Clone, Copy)]
pub struct Served {
    pub table: ReportingTable,
    pub answer: Answer,
}

// A global command: one of the seven, or UNSUP_COMMAND; and nothing to a Default Response, which is never answered by another.
fn global_command(
    store: &mut [u8],
    table: &mut TableMut<'_>,
    request: ZclHeader,
    body: &[u8],
    unicast: bool,
    reply: &mut [u8],
) -> Answer
    ensures same_reference { table.new.bytes.ghost_name ≡ table.old.bytes.ghost_name }
    ensures answered { seen result reply.new (state store.new (holding (table_in table.new.bytes.now))) ≡ commanded 8 capacity store.old (holding (table_in table.old.bytes.now)) unicast request body.now (length reply.old) (command_of request.command_identifier.0) }
{
    match CommandIdentifier::from(request.command_identifier.0) {
        CommandIdentifier::ReadAttributes => read_attributes(store, request, body, reply),
        CommandIdentifier::WriteAttributes => write_attributes(store, request, body, reply),
        CommandIdentifier::WriteAttributesUndivided => {
            write_attributes_undivided(store, request, body, reply)
        }
        CommandIdentifier::WriteAttributesNoResponse => {
            write_attributes_no_response(store, request, body, reply)
        }
        CommandIdentifier::ConfigureReporting => {
            configure_reporting(store, table, request, body, reply)
        }
        CommandIdentifier::ReadReportingConfiguration => {
            read_reporting_configuration(store, table.read(), request, body, reply)
        }
        CommandIdentifier::DiscoverAttributes => discover_attributes(store, request, body, reply),
        CommandIdentifier::DefaultResponse => refuse(reply, Refusal::NothingToSend),
        _ => default_response(request, unicast, Status::UnsupCommand, reply),
    }
}

// By the frame's type: no cluster command is known. The global one is told first: of a match with three arms the compiler makes a slower test.
fn serve_frame(
    store: &mut [u8],
    table: &mut TableMut<'_>,
    request: ZclHeader,
    body: &[u8],
    unicast: bool,
    reply: &mut [u8],
) -> Answer
    ensures same_reference { table.new.bytes.ghost_name ≡ table.old.bytes.ghost_name }
    ensures answered { seen result reply.new (state store.new (holding (table_in table.new.bytes.now))) ≡ typed 8 capacity store.old (holding (table_in table.old.bytes.now)) unicast request body.now (length reply.old) (frame_type_of request.frame_control.0) }
{
    let kind = request.frame_control.frame_type();
    let FrameType::GlobalCommand = kind else {
        let FrameType::ClusterCommand = kind else {
            return refuse(reply, Refusal::ReservedFrameType);
        };
        return default_response(request, unicast, Status::UnsupCommand, reply);
    };
    global_command(store, table, request, body, unicast, reply)
}

// A request over bytes of which it is known whether they are a table: 7, 8, 1, 2, and then the frame. The table has been asked before the store, which
// is refused first: in the other order the compiler keeps less in registers, and a read and a discover take more instructions.
fn serve_known(
    store: &mut [u8],
    table: &mut [u8],
    known: bool,
    cluster: ClusterId,
    unicast: bool,
    request: &[u8],
    reply: &mut [u8],
) -> Answer
    requires { known ≡ true → is_table capacity table.old ≡ true }
    ensures { OverBytes known store.old table.old cluster.0 unicast request.now (length reply.old) result reply.new store.new table.new }
{
    if !is_store(store) {
        return refuse(reply, Refusal::NotAStore);
    }
    if !known {
        return refuse(reply, Refusal::NotATable);
    }
    let mut held = TableMut { bytes: table };
    let own = cluster_of(store);
    if own.0 != cluster.0 {
        return refuse(reply, Refusal::OtherCluster);
    }
    let Some(h) = read_header(request) else {
        return refuse(reply, Refusal::HeaderShort);
    };
    let start = h.body;
    serve_frame(store, &mut held, h, &request[start..], unicast, reply)
}

// Serves a request over a table that is lent as bytes. They are checked once; then Configure Reporting and Read Reporting Configuration work on
// them where they lie, and no other command touches them.
pub fn handle_request_lent(
    store: &mut [u8],
    table: &mut [u8],
    cluster: ClusterId,
    unicast: bool,
    request: &[u8],
    reply: &mut [u8],
) -> Answer
    ensures { seen result reply.new (lent store.new table.new) ≡ serve_lent store.old table.old cluster.0 unicast request.now (length reply.old) }
{
    let known = is_table(table);
    serve_known(store, table, known, cluster, unicast, request, reply)
}

// Serves a request over a table by value, and hands the table back: it is laid out as bytes, served there, and read back. One with a count above
// the limit comes back as it was.
pub fn handle_request(
    store: &mut [u8],
    table: ReportingTable,
    cluster: ClusterId,
    unicast: bool,
    request: &[u8],
    reply: &mut [u8],
) -> Served
    ensures { seen result.answer reply.new (state store.new (table_of result.table)) ≡ serve 8 capacity store.old (quieted_t (table_of table)) cluster.0 unicast request.now (length reply.old) }
{
    let mut bytes = [0; TABLE_BYTES];
    let known = write_table(&mut bytes, table);
    let answer = serve_known(store, &mut bytes, known, cluster, unicast, request, reply);
    if !known {
        return Served { answer, table };
    }
    let after = read_table(&bytes).unwrap();
    Served {
        answer,
        table: after,
    }
}
