// Where a value ends (ZCL 2.6): the role of the `ZclDataType` reader, for every slice, place and type.
ghost use Rattle.std.specs.Prelude.{◌≡◌, ◌<◌, ◌≤◌, Err};
ghost use Rattle.types.specs.declared.extent.NoExtent.TheVariants.{Without};
ghost use Rattle.types.specs.Extent.{upto, count, text, by_shape, series_at, structure_at, extent_of};
ghost use Rattle.types.specs.Inside.{ended};

use super::ids::{Shape, TypeId};
use super::number::{byte_at, u16_at};

// Why a value has no end: the slice ends first; or it ends nowhere, whatever bytes came behind.
#[derive(Clone, Copy)]
pub enum NoExtent {
    Cut,
    Without,
}

// n bytes from p on.
fn span(s: &[u8], p: usize, n: usize) -> Result<usize, NoExtent>
    ensures { result ≡ upto s.now p n }
{
    if p <= s.len() {
        if n <= s.len() - p {
            return Ok(p + n);
        }
    }
    Err(NoExtent::Cut)
}

// The two-byte count at p; ffff is the mark of an invalid value, which has no elements.
fn counted(s: &[u8], p: usize) -> usize
    ensures means { result ≡ count 2 s.now p }
    ensures small { result < 65536 }
{
    let n = u16_at(s, p);
    if n == 0xffff {
        return 0;
    }
    n as usize
}

// A string with one length byte; ff is the mark of an invalid one.
fn text_extent(s: &[u8], p: usize) -> Result<usize, NoExtent>
    ensures { result ≡ text 1 s.now p }
{
    let first = span(s, p, 1)?;
    let n = byte_at(s, p) as usize;
    if n == 0xff {
        return span(s, first, 0);
    }
    span(s, first, n)
}

// A string with two length bytes.
fn long_text_extent(s: &[u8], p: usize) -> Result<usize, NoExtent>
    ensures { result ≡ text 2 s.now p }
{
    let first = span(s, p, 2)?;
    span(s, first, counted(s, p))
}

// A value that is no collection.
fn plain_extent(s: &[u8], p: usize, layout: Shape) -> Result<usize, NoExtent>
    ensures { result ≡ by_shape s.now p layout (Err Without) (Err Without) }
{
    match layout {
        Shape::Fixed(w) => span(s, p, w),
        Shape::Text => text_extent(s, p),
        Shape::LongText => long_text_extent(s, p),
        Shape::Series | Shape::Structure | Shape::Unknown => Err(NoExtent::Without),
    }
}

// A collection's extent as a number: where it ends, or one of these two, which are no end since a head alone has two bytes. A number comes back in a
// register; a `Result` would go through memory, on the stack of every level.
const WITHOUT: usize = 0;

const CUT: usize = 1;

// The end that such a number says.
fn extent_by(place: usize) -> Result<usize, NoExtent>
    ensures { result ≡ ended place }
{
    if CUT < place {
        return Ok(place);
    }
    if place == CUT {
        return Err(NoExtent::Cut);
    }
    Err(NoExtent::Without)
}

// A value that is no collection, as such a number.
fn plain_place(s: &[u8], p: usize, layout: Shape) -> usize
    requires { 2 ≤ p }
    ensures { ended result ≡ by_shape s.now p layout (Err Without) (Err Without) }
{
    match plain_extent(s, p, layout) {
        Ok(q) => q,
        Err(NoExtent::Cut) => CUT,
        Err(NoExtent::Without) => WITHOUT,
    }
}

// An array, set or bag at p: element type, count, elements; with so many levels left for it and what it holds.
// Elements of one size are passed over by one multiplication, so that their count costs nothing.
#[cycle(series_extent_structure_extent)]
fn series_extent(s: &[u8], p: usize, depth: usize) -> usize
    ensures { ended result ≡ series_at depth s.now p }
{
    if depth == 0 {
        return WITHOUT;
    }
    let Ok(first) = span(s, p, 3) else {
        return CUT;
    };
    let n = counted(s, p + 1);
    let layout = TypeId(s[p]).shape();
    if let Shape::Fixed(w) = layout {
        return plain_place(s, first, Shape::Fixed(n * w));
    }
    let mut q = first;
    for _ in 0..n {
        let next = match layout {
            Shape::Series => series_extent(s, q, depth - 1),
            Shape::Structure => structure_extent(s, q, depth - 1),
            _ => plain_place(s, q, layout),
        };
        if next <= CUT {
            return next;
        }
        q = next;
    }
    q
}

// A structure at p: count, then type and value of each member; with so many levels left for it and what it holds.
#[cycle(series_extent_structure_extent)]
fn structure_extent(s: &[u8], p: usize, depth: usize) -> usize
    ensures { ended result ≡ structure_at depth s.now p }
{
    if depth == 0 {
        return WITHOUT;
    }
    let Ok(first) = span(s, p, 2) else {
        return CUT;
    };
    let mut q = first;
    for _ in 0..counted(s, p) {
        if s.len() <= q {
            return CUT;
        }
        let layout = TypeId(s[q]).shape();
        let next = match layout {
            Shape::Series => series_extent(s, q + 1, depth - 1),
            Shape::Structure => structure_extent(s, q + 1, depth - 1),
            _ => plain_place(s, q + 1, layout),
        };
        if next <= CUT {
            return next;
        }
        q = next;
    }
    q
}

// Where the value of a type at p ends. The outermost collection is level 1 of 15.
pub fn extent_at(s: &[u8], p: usize, type_id: TypeId) -> Result<usize, NoExtent>
    ensures { result ≡ extent_of s.now p type_id.0 }
{
    let layout = type_id.shape();
    match layout {
        Shape::Series => extent_by(series_extent(s, p, 15)),
        Shape::Structure => extent_by(structure_extent(s, p, 15)),
        _ => plain_extent(s, p, layout),
    }
}
