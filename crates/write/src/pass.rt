// One pass over the records of a request: each is written, or only checked, and its failure is listed in the reply.
ghost use Rattle.std.specs.Prelude.{◌≡◌, ◌<◌, IfSome};
ghost use Rattle.frame.specs.Status.{status_code};
ghost use Rattle.frame.specs.Inside.Buffer.{putting};
ghost use Rattle.frame.specs.Inside.Failures.{noting};
ghost use Rattle.frame.specs.Inside.Passes.{Passed};
ghost use Rattle.store.specs.Write.{wrote};
ghost use Rattle.write.specs.Request.{records};
ghost use Rattle.write.specs.Reply.{failure, encode};
ghost use Rattle.write.specs.Write.{listing, written_all};
ghost use Rattle.write.specs.Inside.{check_only, OnValue, Does, by_name, Took};

use super::record::{Record, next_record};
use frame::failures::{Unfinished, list_failure};
use frame::header::ZclHeader;
use frame::status::Status;
use store::lookup::{Name, name_of};
use store::write::{check_write, write};
use types::ids::{AttributeId, TypeId};

// A record done: what came of it, and where the next one starts.
#[derive(Clone, Copy)]
struct Step {
    id: AttributeId,
    status: Status,
    end: usize,
}

// The status of a value that is only checked: what a write of it would say. Called as `write` is, which is why the store is `&mut`.
pub(crate) fn check(s: &mut [u8], name: Name, type_id: TypeId, value: &[u8]) -> Status
    ensures { wrote result s.new ≡ check_only 8 s.old name.0 type_id.0 value.now }
{
    match check_write(s, name, type_id, value) {
        Ok(_) => Status::Success,
        Err(why) => why,
    }
}

// One record read, and its value given to `task`, which writes or checks it.
fn record_turn<F: Fn(&mut [u8], Name, TypeId, &[u8]) -> Status + Copy>(
    store: &mut [u8],
    task: F,
    request: ZclHeader,
    body: &[u8],
    at: usize,
) -> Option<Step>
    requires { F.IsAlwaysCallable task }
    ensures took { (does : OnValue) → Does (F.post task) does → Took (listing (by_name does request)) store.old body.now at result store.new }
    ensures later { IfSome result (λ step. at < step.end) }
{
    let Record { id, type_id, end } = next_record(body, at)?;
    let name = name_of(request.manufacturer_code, id);
    let status = task(store, name, type_id, &body[at + 3..end]);
    Some(Step { id, status, end })
}

// Lists a failure: its status and the attribute.
fn note(reply: &mut [u8], out: usize, status: Status, id: AttributeId) -> Option<usize>
    ensures { putting result reply.new ≡ noting reply.old out status (encode (failure (status_code status) id.0)) }
{
    let [low, high] = id.0.to_le_bytes();
    list_failure(reply, out, status, &[u8::from(status), low, high])
}

// Every record of the body, its failures listed from `start` on, until one cannot be read or does not fit.
pub(crate) fn pass_records<F: Fn(&mut [u8], Name, TypeId, &[u8]) -> Status + Copy>(
    store: &mut [u8],
    task: F,
    request: ZclHeader,
    body: &[u8],
    reply: &mut [u8],
    start: usize,
) -> Result<usize, Unfinished>
    requires { F.IsAlwaysCallable task }
    ensures { (does : OnValue) → Does (F.post task) does → Passed (listing (by_name does request)) (records body.now) start store.old reply.old result store.new reply.new }
{
    let mut at = 0;
    let mut out = start;
    while at < body.len() {
        let step = record_turn(store, task, request, body, at).ok_or(Unfinished::Cut)?;
        out = note(reply, out, step.status, step.id).ok_or(Unfinished::Full)?;
        at = step.end;
    }
    Ok(out)
}

// Every record written, until one cannot be read; nothing is listed.
pub(crate) fn apply_write_records(store: &mut [u8], request: ZclHeader, body: &[u8])
    ensures { store.new ≡ written_all 8 request body.now store.old }
{
    let mut at = 0;
    while at < body.len() {
        let Some(step) = record_turn(store, write, request, body, at) else {
            return;
        };
        at = step.end;
    }
}
