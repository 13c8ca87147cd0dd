// One pass over the records of a request: each is done in the table's bytes, and its failure is listed in the reply.
ghost use Rattle.std.specs.Prelude.{◌≡◌};
ghost use Rattle.frame.specs.Status.{status_code};
ghost use Rattle.frame.specs.Inside.Buffer.{putting};
ghost use Rattle.frame.specs.Inside.Failures.{noting};
ghost use Rattle.configure.specs.Configure.{failure, encode};
ghost use Rattle.configure.specs.Inside.{Settles, Turns, Runs};

use super::record::{DIRECTION_REPORTED, Record, next_record};
use super::settle::{Deed, judge, status_of};
use frame::failures::{Unfinished, list_failure};
use frame::header::ZclHeader;
use frame::status::Status;
use reporting::held::TableMut;
use types::ids::AttributeId;

// A record, what is to be done or the failure, and where the next record starts.
#[derive(Clone, Copy)]
struct Turn {
    direction: u8,
    id: AttributeId,
    deed: Result<Deed, Status>,
    end: usize,
}

// One record read and judged, if it is not cut.
#[tactic(auto, using(crate::proofs::Turns::took_received, crate::proofs::Turns::took_reported))]
fn configure_turn(store: &[u8], request: ZclHeader, body: &[u8], at: usize) -> Option<Turn>
    ensures { Turns store.now request body.now at result }
{
    let turn = match next_record(body, at)? {
        Record::Received { direction, id, end } => Turn {
            direction,
            id,
            deed: Err(Status::UnreportableAttribute),
            end,
        },
        Record::Reported {
            id,
            type_id,
            config,
            end,
        } => Turn {
            direction: DIRECTION_REPORTED,
            id,
            deed: judge(store, request, id, type_id, config),
            end,
        },
    };
    Some(turn)
}

// Lists a failure: status, direction, id.
#[tactic(auto, unfolding(types::specs::Number::bytes_of))]
fn note(
    reply: &mut [u8],
    out: usize,
    status: Status,
    direction: u8,
    id: AttributeId,
) -> Option<usize>
    ensures { putting result reply.new ≡ noting reply.old out status (encode (failure (status_code status) direction id.0)) }
{
    let [low, high] = id.0.to_le_bytes();
    let four = [u8::from(status), direction, low, high];
    list_failure(reply, out, status, &four)
}

// A deed done in the table, and what it came to. A failure leaves the table.
fn done(table: &mut TableMut<'_>, deed: Result<Deed, Status>) -> Status
    ensures same_reference { table.new.bytes.ghost_name ≡ table.old.bytes.ghost_name }
    ensures settled { Settles deed table.old.bytes.now table.new.bytes.now result }
{
    match deed {
        Err(why) => why,
        Ok(Deed::Clears(key)) => {
            table.clear(key);
            Status::Success
        }
        Ok(Deed::Sets(key, config)) => {
            let accepted = table.configure(key, config);
            status_of(accepted)
        }
    }
}

// Every record of the body, its failures listed from `start` on, until one cannot be read or does not fit.
pub(crate) fn configure_records(
    store: &[u8],
    table: &mut TableMut<'_>,
    request: ZclHeader,
    body: &[u8],
    reply: &mut [u8],
    start: usize,
) -> Result<usize, Unfinished>
    ensures same_reference { table.new.bytes.ghost_name ≡ table.old.bytes.ghost_name }
    ensures run { Runs store.now request body.now start table.old.bytes.now reply.old result table.new.bytes.now reply.new }
{
    let mut at: usize = 0;
    let mut out = start;
    while at < body.len() {
        let turn = configure_turn(store, request, body, at).ok_or(Unfinished::Cut)?;
        let status = done(table, turn.deed);
        out = note(reply, out, status, turn.direction, turn.id).ok_or(Unfinished::Full)?;
        at = turn.end;
    }
    Ok(out)
}
