// The attributes that a store's contents list, and the one of a name. Each public function answers for any bytes; past their end they
// read as 0.
ghost use Rattle.std.specs.Prelude.{◌≡◌, ◌+◌, ◌*◌, ◌≤◌, ◌<◌, ℕ, length};
ghost use Rattle.store.specs.Contents.{cluster_of, count_of, attribute_at, reportable, name_of, find_of};

use super::layout::part;
use frame::header::ManufacturerCode;
use types::ids::{AttributeId, ClusterId, TypeId};
use types::number::{byte_at, u16_at};

// What an attribute is looked up by.
#[derive(Clone, Copy)]
pub struct Name(pub u32);

// An attribute, as its entry in the contents says.
#[derive(Clone, Copy)]
pub struct Attribute {
    pub name: Name,
    pub type_id: TypeId,
    pub access: u8,
    pub offset: u16,
    pub room: u16,
}

// What a lookup gives: the attribute, if the contents list one of the name. An `Option` under the name that document 01 has for it.
pub type Found = Option<Attribute>;

// The name that a request's manufacturer code and an id make.
pub fn name_of(code: ManufacturerCode, id: AttributeId) -> Name
    ensures { result.0 ≡ name_of code.0 id.0 }
{
    Name(id.0 as u32)
}

// The cluster that a store belongs to. Where its two bytes are there, they are read as such: neither is asked again whether it is.
pub fn cluster_of(s: &[u8]) -> ClusterId
    ensures { result.0 ≡ cluster_of s.now }
{
    ClusterId(match s.first_chunk() {
        Some(two) => u16::from_le_bytes(*two),
        None => u16_at(s, 0),
    })
}

// How many attributes the contents list.
pub fn count_of(s: &[u8]) -> u16
    ensures { result ≡ count_of s.now }
{
    u16_at(s, 2)
}

// The first attribute of the contents.
fn first(s: &[u8]) -> Attribute
    ensures { result ≡ attribute_at 8 s.now 0 }
{
    Attribute {
        name: Name(u16_at(s, 4) as u32),
        type_id: TypeId(byte_at(s, 6)),
        access: byte_at(s, 7),
        offset: u16_at(s, 8),
        room: u16_at(s, 10),
    }
}

// Attribute i, whose entry must be there: hence not public. The 12 bytes that the entry ends are lent as such: their number is
// then known where they are read, and no byte is asked whether it is there.
pub(crate) fn attribute_in(s: &[u8], i: u16) -> Attribute
    requires { 12 + i * 8 ≤ length s.now }
    ensures { result ≡ attribute_at 8 s.now i }
{
    let p = (i as usize) * 8;
    let end = p + 12;
    first(&s[p..end])
}

// Attribute i of the contents: the first one, with the i entries before it left out.
pub fn attribute_at(s: &[u8], i: u16) -> Attribute
    ensures { result ≡ attribute_at 8 s.now i }
{
    let p = (i as usize) * 8;
    if s.len() < p + 12 {
        return first(part(s, p, 12));
    }
    attribute_in(s, i)
}

// The name of attribute i alone, for a scan that reads no more of the entries it passes.
fn name_at(s: &[u8], i: u16) -> Name
    ensures { result.0 ≡ (attribute_at 8 s.now i).name.0 }
{
    let a = attribute_at(s, i);
    a.name
}

// Whether reports of an attribute may be configured and sent.
pub fn is_reportable(a: Attribute) -> bool
    ensures { result ≡ reportable a }
{
    a.access / 2 % 2 == 1
}

// The name of attribute i, read without a test. Not public: its two bytes must be there.
fn name_in(s: &[u8], i: usize) -> u32
    requires { 6 + i * 8 ≤ length s.now }
    ensures { result ≡ (attribute_at 8 s.now i).name.0 }
{
    let p = 4 + i * 8;
    s[p] as u32 + 256 * (s[p + 1] as u32)
}

// The number of the first of n attributes of a name, or n where none has it. `name` reads the name of one, by its number.
fn place<F: Fn(u16) -> u32>(n: u16, wanted: u32, name: F) -> u16
    requires { (i : ℕ) → i < n → F.pre name i }
    ensures within { result ≤ n }
    ensures hit { result < n → F.post name result wanted }
    ensures passed { (k : ℕ) → k < result → (r : ℕ) × F.post name k r × (r ≡ wanted → ⊥) }
{
    for i in 0..n {
        if name(i) == wanted {
            return i;
        }
    }
    n
}

// The attribute of a name in contents that are cut.
fn find_cut(s: &[u8], n: u16, wanted: u32) -> Found
    requires { n ≡ count_of s.now }
    ensures { result ≡ find_of 8 s.now wanted }
{
    let i = place(n, wanted, |i| name_at(s, i).0);
    if n <= i {
        return None;
    }
    Some(attribute_at(s, i))
}

// The attribute of a name. It is read here, where it is wanted: the scan hands back a number, and no attribute goes through memory.
pub fn find(s: &[u8], name: Name) -> Found
    ensures { result ≡ find_of 8 s.now name.0 }
{
    let n = count_of(s);
    if s.len() < 4 + (n as usize) * 8 {
        return find_cut(s, n, name.0);
    }
    let i = place(n, name.0, |i| name_in(s, i as usize));
    if n <= i {
        return None;
    }
    Some(attribute_in(s, i))
}
