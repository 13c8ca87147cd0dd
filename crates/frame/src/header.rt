// The ZCL header (ZCL 2.4.1), and the first bytes of a reply.
ghost use Rattle.std.specs.Prelude.{◌≡◌, length};
ghost use Rattle.types.specs.Number.{zeros};
ghost use Rattle.frame.specs.Header.{frame_type_of, has_code, header_of, reply_head};
ghost use Rattle.frame.specs.Inside.Buffer.{putting, put};

use super::command_identifier::CommandIdentifier;
use super::reply::{clear, put_run};
use types::ids::CommandId;
use types::number::u16_at;

// The control byte of a reply: a global command from server to client that wants no Default Response.
pub const RESPONSE_FRAME_CONTROL: u8 = 0x18;

#[derive(Clone, Copy, PartialEq, Eq)]
pub struct FrameControl(pub u8);

#[derive(Clone, Copy, PartialEq, Eq)]
pub struct ManufacturerCode(pub u16);

#[derive(Clone, Copy, PartialEq, Eq)]
pub enum FrameType {
    GlobalCommand,
    ClusterCommand,
    Reserved,
}

impl FrameControl {
    // Bits 0 and 1 (2.4.1.1.1).
    pub fn frame_type(self) -> FrameType
        ensures { result ≡ frame_type_of self.0 }
    {
        let bits = self.0 % 4;
        match bits {
            0 => FrameType::GlobalCommand,
            1 => FrameType::ClusterCommand,
            _ => FrameType::Reserved,
        }
    }

    // Bit 2: a manufacturer code follows (2.4.1.1.2).
    pub fn is_manufacturer_specific(self) -> bool
        ensures { result ≡ has_code self.0 }
    {
        self.0 / 4 % 2 == 1
    }
}

#[derive(Clone, Copy)]
pub struct ZclHeader {
    pub frame_control: FrameControl,
    // 0 where the header has none.
    pub manufacturer_code: ManufacturerCode,
    pub sequence_number: u8,
    pub command_identifier: CommandId,
    // Where the body starts.
    pub body: usize,
}

// The header at the start of a frame, if the frame is long enough to have one.
pub fn read_header(frame: &[u8]) -> Option<ZclHeader>
    ensures { result ≡ header_of frame.now }
{
    if frame.len() < 3 {
        return None;
    }
    let control = FrameControl(frame[0]);
    if !control.is_manufacturer_specific() {
        return Some(ZclHeader {
            frame_control: control,
            manufacturer_code: ManufacturerCode(0),
            sequence_number: frame[1],
            command_identifier: CommandId(frame[2]),
            body: 3,
        });
    }
    if frame.len() < 5 {
        return None;
    }
    Some(ZclHeader {
        frame_control: control,
        manufacturer_code: ManufacturerCode(u16_at(frame, 1)),
        sequence_number: frame[3],
        command_identifier: CommandId(frame[4]),
        body: 5,
    })
}

// Puts the first bytes of a reply to a request: 18, its sequence number, the reply's command.
pub fn write_response_header(
    reply: &mut [u8],
    request: ZclHeader,
    command: CommandIdentifier,
) -> Option<usize>
    ensures { putting result reply.new ≡ put reply.old 0 (reply_head request command) }
{
    let head = [
        RESPONSE_FRAME_CONTROL,
        request.sequence_number,
        u8::from(command),
    ];
    put_run(reply, 0, &head)
}

// A reply is begun: its first bytes, and zeros behind.
pub fn begin_reply(
    reply: &mut [u8],
    request: ZclHeader,
    command: CommandIdentifier,
) -> Option<usize>
    ensures { putting result reply.new ≡ put (zeros (length reply.old)) 0 (reply_head request command) }
{
    clear(reply);
    write_response_header(reply, request, command)
}
