// What ours says to a type, to a frame's header and to a value, held to what was recorded: whether it is the same; `None`
// where the input is none of its kind. So do the modules of the other kinds.
ghost use Rattle.std.specs.Prelude.{◌≡◌, ◌%◌};
ghost use Rattle.replay.specs.Ours.{agreement, size_byte, frame_type_byte, of_type, of_header, of_extent};

use super::bytes::rest;
use frame::header::{FrameType, read_header};
use types::extent::extent_at;
use types::ids::TypeId;

// The low byte of a number.
pub(crate) fn low(n: usize) -> u8
    ensures { result ≡ n % 256 }
{
    (n % 256) as u8
}

fn size_byte(size: Option<usize>) -> u8
    ensures { result ≡ size_byte size }
{
    match size {
        Some(w) => low(w),
        None => 0xff,
    }
}

// The size of a type as one byte, ff where it varies; whether it is analog; whether it can be reported.
pub(crate) fn of_type(input: &[u8], held: &[u8]) -> Option<bool>
    ensures { result ≡ agreement (of_type input.now) held.now }
{
    if input.len() != 1 {
        return None;
    }
    let id = TypeId(input[0]);
    let says = [
        size_byte(id.fixed_size()),
        u8::from(id.is_analog()),
        u8::from(id.is_reportable_type()),
    ];
    Some(&says[..] == held)
}

fn frame_type_byte(t: FrameType) -> u8
    ensures { result ≡ frame_type_byte t }
{
    match t {
        FrameType::GlobalCommand => 0,
        FrameType::ClusterCommand => 1,
        FrameType::Reserved => 2,
    }
}

// Nothing where the frame is too short for a header; else its frame type, whether it has a manufacturer code, the code,
// the sequence number, the command, and where the body starts.
pub(crate) fn of_header(input: &[u8], held: &[u8]) -> Option<bool>
    ensures { result ≡ agreement (of_header input.now) held.now }
{
    let Some(h) = read_header(input) else {
        return Some(held.is_empty());
    };
    let control = h.frame_control;
    let code = h.manufacturer_code.0 as usize;
    let says = [
        frame_type_byte(control.frame_type()),
        u8::from(control.is_manufacturer_specific()),
        low(code),
        low(code / 256),
        h.sequence_number,
        h.command_identifier.0,
        low(h.body),
    ];
    Some(&says[..] == held)
}

// A type code and bytes: 00 where no value of the type ends in them, else 01 and the end.
pub(crate) fn of_extent(input: &[u8], held: &[u8]) -> Option<bool>
    ensures { result ≡ agreement (of_extent input.now) held.now }
{
    if input.is_empty() {
        return None;
    }
    let Ok(end) = extent_at(rest(input, 1), 0, TypeId(input[0])) else {
        return Some(&[0][..] == held);
    };
    let says = [1, low(end), low(end / 256)];
    Some(&says[..] == held)
}
