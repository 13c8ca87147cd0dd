// Whether bytes are a store. Any bytes get an answer.
ghost use Rattle.std.specs.Prelude.{◌≡◌, [], ◌∷◌, take, drop};
ghost use Rattle.store.specs.Layout.{is_text, text_length, room_ok, length_ok, unused_ok, all_of, is_store};
ghost use Rattle.store.specs.Inside.{entry_ok};

use super::lookup::{Attribute, attribute_in, count_of};
use types::ids::{Shape, TypeId};
use types::number::{all_zero, byte_at};

// n bytes from `from` on, as far as they are there.
pub fn part(s: &[u8], from: usize, n: usize) -> &[u8]
    ensures { result.now ≡ take n (drop from s.now) }
{
    if s.len() <= from {
        return &[];
    }
    let rest = &s[from..];
    &rest[..n.min(rest.len())]
}

// Whether an attribute's values are strings with a length byte: octet or character strings.
pub fn is_text(a: Attribute) -> bool
    ensures { result ≡ is_text a }
{
    matches!(a.type_id.0, TypeId::OCTET_STRING | TypeId::CHARACTER_STRING)
}

// How many bytes the first byte of a body counts; ff counts none.
pub fn text_length(s: &[u8], a: Attribute) -> usize
    ensures { result ≡ text_length s.now a }
{
    match byte_at(s, a.offset as usize) {
        0xff => 0,
        n => n as usize,
    }
}

// Whether a type may stand in a store and has the room that it must have; of a string, too, whether its length fits the room, in
// which its length byte stands first, and what it does not use is 0.
fn body_ok(s: &[u8], a: Attribute) -> bool
    ensures { result ≡ all_of (room_ok a ∷ length_ok s.now a ∷ unused_ok s.now a ∷ []) }
{
    let room = a.room as usize;
    let layout = a.type_id.shape();
    match layout {
        Shape::Fixed(w) => 1 <= w && w <= 16 && room == w,
        Shape::Text => {
            let used = 1 + text_length(s, a);
            room <= 255 && used <= room && all_zero(part(s, a.offset as usize + used, room - used))
        }
        _ => false,
    }
}

// Whether one attribute keeps all conditions, its name `least` or more and its body at `from`.
fn entry_ok(s: &[u8], a: Attribute, least: usize, from: usize) -> bool
    ensures { result ≡ entry_ok s.now least from a }
{
    least <= a.name.0 as usize && a.access < 4 && a.offset as usize == from && body_ok(s, a)
}

// Whether the bytes are a store. Bytes that end within the contents are none, so the loop has whole entries before it.
pub fn is_store(s: &[u8]) -> bool
    ensures { result ≡ is_store 8 s.now }
{
    let n = count_of(s);
    if 64 < n {
        return false;
    }
    let mut least: usize = 0;
    let mut from = 4 + (n as usize) * 8;
    if s.len() < from {
        return false;
    }
    for i in 0..n {
        let a = attribute_in(s, i);
        if !entry_ok(s, a, least, from) {
            return false;
        }
        least = a.name.0 as usize + 1;
        from += a.room as usize;
    }
    from == s.len() && from <= 4096
}
