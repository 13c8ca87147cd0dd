// One write: the four checks, and the value stored where they pass.
ghost use Rattle.std.specs.Prelude.{◌≡◌};
ghost use Rattle.store.specs.Contents.{find_of};
ghost use Rattle.store.specs.Write.{too_long, check_of, wrote, write_of};

use super::layout::is_text;
use super::lookup::{Attribute, Name, find};
use super::value::write_value;
use frame::status::Status;
use types::ids::TypeId;
use types::number::byte_at;

// Whether a string does not fit its room with its length byte; ff does.
fn too_long(a: Attribute, value: &[u8]) -> bool
    ensures { result ≡ too_long a value.now }
{
    if !is_text(a) {
        return false;
    }
    let n = byte_at(value, 0);
    if n == 0xff {
        return a.room < 1;
    }
    (a.room as usize) < 1 + n as usize
}

// The attribute that a value may be written to, by the four checks, in order: not found, not writable, other type, too long.
pub fn check_write(s: &[u8], name: Name, type_id: TypeId, value: &[u8]) -> Result<Attribute, Status>
    ensures { result ≡ check_of (find_of 8 s.now name.0) type_id.0 value.now }
{
    let Some(a) = find(s, name) else {
        return Err(Status::UnsupportedAttribute);
    };
    if a.access % 2 != 1 {
        return Err(Status::ReadOnly);
    }
    if a.type_id != type_id {
        return Err(Status::InvalidDataType);
    }
    if too_long(a, value) {
        return Err(Status::InvalidValue);
    }
    Ok(a)
}

// Writes a value if the checks pass, and says how they went.
pub fn write(s: &mut [u8], name: Name, type_id: TypeId, value: &[u8]) -> Status
    ensures { wrote result s.new ≡ write_of 8 s.old name.0 type_id.0 value.now }
{
    let checked = check_write(s, name, type_id, value);
    match checked {
        Ok(a) => {
            write_value(s, a, value);
            Status::Success
        }
        Err(why) => why,
    }
}
