// What ours says to a request with a table by value, held to what was recorded.
ghost use Rattle.std.specs.Prelude.{◌≡◌, cond, ◌≤◌, length, Some, None};
ghost use Rattle.reporting.specs.Table.{capacity};
ghost use Rattle.reporting.specs.Carried.{is_table, reading, read_t};
ghost use Rattle.replay.specs.Ours.{agreement};
ghost use Rattle.replay.specs.Requests.{whole_table, request_says, of_request};

use super::bytes::{blank, rest};
use super::commands::match_answer;
use super::methods::lay;
use frame::reply::put_run;
use reporting::carried::{SLOT, TABLE_BYTES, read_table};
use reporting::table::ReportingTable;
use server::serve::handle_request;
use store::layout::part;
use types::ids::ClusterId;
use types::number::{byte_at, u16_at};

// The table whose bytes start with these, zeros behind them.
fn table_of(used: &[u8]) -> Option<ReportingTable>
    ensures { reading result ≡ read_t capacity (whole_table used.now) }
{
    if TABLE_BYTES < used.len() {
        return read_table(used);
    }
    let mut bytes = [0u8; TABLE_BYTES];
    put_run(&mut bytes, 0, used);
    read_table(&bytes)
}

// The request, with as much room as `reply` has. `copy` is for the store.
fn served(
    used: &[u8],
    store: &[u8],
    frame: &[u8],
    held: &[u8],
    copy: &mut [u8],
    reply: &mut [u8],
) -> Option<bool>
    requires { length copy.old ≡ length store.now }
    ensures { result ≡ agreement (cond (is_table capacity (whole_table used.now)) (Some (request_says used.now store.now frame.now (length reply.old))) None) held.now }
{
    let table = table_of(used)?;
    put_run(copy, 0, store);
    let done = handle_request(copy, table, ClusterId(u16_at(copy, 0)), true, frame, reply);
    let mut bytes = [0u8; TABLE_BYTES];
    let n = lay(&mut bytes, done.table);
    let end = match_answer(held, 0, done.answer, reply, used, part(&bytes, 0, n));
    Some(end == Some(held.len()))
}

// The room (1), the table as far as it is used, the store's length (2), the store, and a frame.
pub(crate) fn of_request(input: &[u8], held: &[u8]) -> Option<bool>
    requires { length input.now ≤ 4608 }
    ensures { result ≡ agreement (of_request input.now) held.now }
{
    let room = byte_at(input, 0) as usize;
    let n = 1 + SLOT * (byte_at(input, 1) as usize);
    let k = u16_at(input, 1 + n) as usize;
    if input.len() < 3 + n + k {
        return None;
    }
    let mut copy = blank();
    let mut reply = [0u8; 255];
    served(
        part(input, 1, n),
        part(input, 3 + n, k),
        rest(input, 3 + n + k),
        held,
        &mut copy[..k],
        &mut reply[..room],
    )
}
