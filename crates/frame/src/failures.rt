// The reply of a command that lists its failures, or one SUCCESS if there is none.
ghost use Rattle.std.specs.Prelude.{◌≡◌, Ok};
ghost use Rattle.frame.specs.Inside.Buffer.{putting};
ghost use Rattle.frame.specs.Answer.{seen, no_state};
ghost use Rattle.frame.specs.Inside.Failures.{noting, refusal_of, concluded_at};

use super::answer::{Answer, Refusal, refuse};
use super::reply::{put_byte, put_run};
use super::status::Status;

// Why a pass over the records of a request did not take every one: a record is cut; or a failure does not fit.
#[derive(Clone, Copy)]
pub enum Unfinished {
    Cut,
    Full,
}

impl From<Unfinished> for Refusal {
    ghost from_gives = { λ why refusal. refusal ≡ refusal_of why };

    fn from(why: Unfinished) -> Refusal {
        match why {
            Unfinished::Cut => Refusal::RecordCut,
            Unfinished::Full => Refusal::ReplyTooLong,
        }
    }
}

// Lists a failure, whose bytes these are. A success is not listed.
pub fn list_failure(reply: &mut [u8], out: usize, status: Status, failure: &[u8]) -> Option<usize>
    ensures { putting result reply.new ≡ noting reply.old out status failure.now }
{
    if status == Status::Success {
        return Some(out);
    }
    put_run(reply, out, failure)
}

// The reply as it stands, or with one SUCCESS where no failure is listed behind its header.
fn finish(reply: &mut [u8], start: usize, out: usize) -> Answer
    ensures { seen result reply.new no_state ≡ concluded_at reply.old start (Ok out) }
{
    if out != start {
        return Ok(out);
    }
    let Some(n) = put_byte(reply, out, u8::from(Status::Success)) else {
        return refuse(reply, Refusal::ReplyTooLong);
    };
    Ok(n)
}

// The answer to a pass that listed its failures behind a header, which ends at `start`.
pub fn conclude(reply: &mut [u8], start: usize, done: Result<usize, Unfinished>) -> Answer
    ensures { seen result reply.new no_state ≡ concluded_at reply.old start done }
{
    match done {
        Ok(out) => finish(reply, start, out),
        Err(why) => refuse(reply, Refusal::from(why)),
    }
}
