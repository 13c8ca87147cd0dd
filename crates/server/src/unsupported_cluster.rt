// The responder for clusters that are not served (`UnsupportedClusterResponder` in the Rust; ZCL 2.5.12.2).
ghost use Rattle.std.specs.Prelude.{◌≡◌, length};
ghost use Rattle.frame.specs.Answer.{seen, no_state};
ghost use Rattle.server.specs.UnsupportedCluster.{is_served, is_default_response, unsupported_cluster};

use super::default_response::default_response;
use frame::answer::{Answer, Refusal, refuse};
use frame::command_identifier::CommandIdentifier;
use frame::header::{FrameType, ZclHeader, read_header};
use frame::status::Status;
use types::ids::ClusterId;

// Whether a cluster is one of those that are served. Not by `contains`, which is made for long lists: the archive would be 540 bytes larger.
fn is_served(served: &[u16], cluster: ClusterId) -> bool
    ensures { result ≡ is_served cluster.0 served.now }
{
    served.iter().any(|id| *id == cluster.0)
}

// Whether a request is a global Default Response, which is never answered by another.
fn is_default_response(request: ZclHeader) -> bool
    ensures { result ≡ is_default_response request }
{
    request.frame_control.frame_type() == FrameType::GlobalCommand
        && request.command_identifier.0 == u8::from(CommandIdentifier::DefaultResponse)
}

// Says of a cluster that it is not served: nothing to send where it is, and then as for a Default Response.
pub fn unsupported_cluster(
    served: &[u16],
    cluster: ClusterId,
    unicast: bool,
    request: &[u8],
    reply: &mut [u8],
) -> Answer
    ensures { seen result reply.new no_state ≡ unsupported_cluster served.now cluster.0 unicast request.now (length reply.old) }
{
    if is_served(served, cluster) {
        return refuse(reply, Refusal::NothingToSend);
    }
    let Some(h) = read_header(request) else {
        return refuse(reply, Refusal::HeaderShort);
    };
    if is_default_response(h) {
        return refuse(reply, Refusal::NothingToSend);
    }
    default_response(h, unicast, Status::UnsupportedCluster, reply)
}
