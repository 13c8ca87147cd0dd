// The server's functions. `unicast` is 0 or anything else; a refusal leaves zeros in the reply buffer and through `reply_used`.
ghost use Rattle.std.specs.Prelude.{◌≡◌, length};
ghost use Rattle.frame.specs.Answer.{no_state};
ghost use Rattle.report.specs.Turn.{after_turn};
ghost use Rattle.server.specs.Lent.{lent};
ghost use Rattle.hingedrift.specs.Serving.{handed, number_handed, number_left, unsupported_left, report_left, turn_left, handle_left};

use frame::answer::{answer_number, reply_len};
use frame::header::ManufacturerCode;
use report::report::report;
use report::turn::report_turn;
use server::serve::handle_request_lent;
use server::unsupported_cluster::unsupported_cluster;
use store::lookup::name_of;
use store::value::number_of;
use types::ids::{AttributeId, ClusterId};

// The number of an attribute's value. A Uint32 with its top bit set is not negative.
#[unsafe(no_mangle)]
pub extern "C" fn hd_number(store: &[u8], attribute: u16, value: &mut i64) -> u8
    ensures { number_handed result value.new ≡ number_left store.now attribute }
{
    *value = 0;
    let name = name_of(ManufacturerCode(0), AttributeId(attribute));
    match number_of(store, name) {
        Ok(z) => {
            *value = z;
            0
        }
        Err(why) => u8::from(why),
    }
}

// Serves a request.
#[unsafe(no_mangle)]
pub extern "C" fn hd_handle_request(
    store: &mut [u8],
    table: &mut [u8],
    cluster: u16,
    unicast: u8,
    request: &[u8],
    reply: &mut [u8],
    reply_used: &mut usize,
) -> u8
    ensures { handed result reply_used.new reply.new (lent store.new table.new) ≡ handle_left store.old table.old cluster unicast request.now (length reply.old) }
{
    let answer = handle_request_lent(
        store,
        table,
        ClusterId(cluster),
        unicast != 0,
        request,
        reply,
    );
    *reply_used = reply_len(answer);
    answer_number(answer)
}

// Answers a request for a cluster that is not served.
#[unsafe(no_mangle)]
pub extern "C" fn hd_unsupported_cluster(
    served: &[u16],
    cluster: u16,
    unicast: u8,
    request: &[u8],
    reply: &mut [u8],
    reply_used: &mut usize,
) -> u8
    ensures { handed result reply_used.new reply.new no_state ≡ unsupported_left served.now cluster unicast request.now (length reply.old) }
{
    let answer = unsupported_cluster(served, ClusterId(cluster), unicast != 0, request, reply);
    *reply_used = reply_len(answer);
    answer_number(answer)
}

// Writes a Report Attributes frame.
#[unsafe(no_mangle)]
pub extern "C" fn hd_report(
    store: &[u8],
    sequence: u8,
    ids: &[u16],
    frame: &mut [u8],
    frame_used: &mut usize,
) -> u8
    ensures { handed result frame_used.new frame.new no_state ≡ report_left store.now sequence ids.now (length frame.old) }
{
    let answer = report(store, sequence, ids, frame);
    *frame_used = reply_len(answer);
    answer_number(answer)
}

// Writes a Report Attributes frame of all that is due, and marks what is in it. `last` goes in and comes back: above ffff it is none. The parameter
// `now` hides the clauses' `now`: a clause says `.now`.
#[unsafe(no_mangle)]
pub extern "C" fn hd_report_turn(
    store: &[u8],
    table: &mut [u8],
    sequence: u8,
    now: u32,
    last: &mut u32,
    frame: &mut [u8],
    frame_used: &mut usize,
) -> u8
    ensures { handed result frame_used.new frame.new (after_turn table.new last.new) ≡ turn_left store.now table.old sequence now last.old (length frame.old) }
{
    let turned = report_turn(store, table, sequence, now, *last, frame);
    let answer = turned.answer;
    *last = turned.last;
    *frame_used = reply_len(answer);
    answer_number(answer)
}
