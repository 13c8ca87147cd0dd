// The value of an attribute: as it is sent, its number, and written.
ghost use Rattle.std.specs.Prelude.{◌≡◌};
ghost use Rattle.store.specs.Value.{used_of, value_of, stored, telling, number_of};

use super::layout::{is_store, is_text, part, text_length};
use super::lookup::{Attribute, Name, find};
use frame::answer::Refusal;
use types::number::byte_at;
use types::value::number_at;

// How many bytes of a body are sent.
fn used_of(s: &[u8], a: Attribute) -> usize
    ensures { result ≡ used_of s.now a }
{
    if is_text(a) {
        1 + text_length(s, a)
    } else {
        a.room as usize
    }
}

// The bytes of a value that are sent; a string's unused bytes never are.
pub fn value_of(s: &[u8], a: Attribute) -> &[u8]
    ensures { result.now ≡ value_of s.now a }
{
    let n = used_of(s, a);
    part(s, a.offset as usize, n)
}

// Writes a value into its body, and zeros behind it up to the room: past its end, a byte is 0.
pub fn write_value(s: &mut [u8], a: Attribute, value: &[u8])
    ensures { s.new ≡ stored s.old a value.now }
{
    let from = (a.offset as usize).min(s.len());
    let end = (from + a.room as usize).min(s.len());
    for (i, b) in s[from..end].iter_mut().enumerate() {
        *b = byte_at(value, i);
    }
}

// The number of the value of the attribute of a name: 7, then 9.
pub fn number_of(s: &[u8], name: Name) -> Result<i64, Refusal>
    ensures { telling result ≡ telling (number_of 8 s.now name.0) }
{
    if !is_store(s) {
        return Err(Refusal::NotAStore);
    }
    let a = find(s, name).ok_or(Refusal::NoNumber)?;
    number_at(s, a.offset as usize, a.type_id).ok_or(Refusal::NoNumber)
}
