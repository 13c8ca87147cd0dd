// The Default Response (ZCL 2.5.12).
ghost use Rattle.std.specs.Prelude.{◌≡◌, length};
ghost use Rattle.frame.specs.Answer.{seen, no_state};
ghost use Rattle.server.specs.DefaultResponse.{silences, default_response};

use frame::answer::{Answer, Refusal, refuse};
use frame::command_identifier::CommandIdentifier;
use frame::header::{FrameControl, ZclHeader, begin_reply};
use frame::reply::put_run;
use frame::status::Status;

// Whether a control byte silences a Default Response: by bit 4, and only a SUCCESS.
fn is_silenced(control: FrameControl, status: Status) -> bool
    ensures { result ≡ silences control.0 status }
{
    control.0 / 16 % 2 == 1 && status == Status::Success
}

// A Default Response to a request: nothing to send where it was not unicast, or where bit 4 silences a SUCCESS.
pub fn default_response(
    request: ZclHeader,
    unicast: bool,
    status: Status,
    reply: &mut [u8],
) -> Answer
    ensures { seen result reply.new no_state ≡ default_response request unicast status (length reply.old) }
{
    if !unicast {
        return refuse(reply, Refusal::NothingToSend);
    }
    if is_silenced(request.frame_control, status) {
        return refuse(reply, Refusal::NothingToSend);
    }
    let Some(from) = begin_reply(reply, request, CommandIdentifier::DefaultResponse) else {
        return refuse(reply, Refusal::ReplyTooLong);
    };
    let of = request.command_identifier;
    let two = [of.0, u8::from(status)];
    let Some(n) = put_run(reply, from, &two) else {
        return refuse(reply, Refusal::ReplyTooLong);
    };
    Ok(n)
}
