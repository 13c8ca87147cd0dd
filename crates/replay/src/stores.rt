// What ours says to the lines of stores, held to what was recorded.
ghost use Rattle.std.specs.Prelude.{◌≡◌, ◌≤◌, ◌^◌, length, Some};
ghost use Rattle.types.specs.Number.{unsigned_at, residue};
ghost use Rattle.store.specs.Value.{telling};
ghost use Rattle.store.specs.Write.{write_of};
ghost use Rattle.replay.specs.Ours.{agreement, number_says, write_says, of_store, of_number, of_write};

use super::bytes::{blank, match_run, rest};
use frame::answer::Refusal;
use frame::header::ManufacturerCode;
use frame::reply::put_run;
use store::layout::{is_store, part};
use store::lookup::{Name, name_of};
use store::value::number_of;
use store::write::write;
use types::ids::{AttributeId, TypeId};
use types::number::{le_bytes, u16_at};

// 01 where the bytes are a store, 00 where not.
pub(crate) fn of_store(input: &[u8], held: &[u8]) -> Option<bool>
    ensures { result ≡ agreement (of_store input.now) held.now }
{
    Some(&[u8::from(is_store(input))][..] == held)
}

// The name of the id at the start of an input.
fn name_at_start(input: &[u8]) -> Name
    ensures { result.0 ≡ unsigned_at input.now 0 2 }
{
    name_of(ManufacturerCode(0), AttributeId(u16_at(input, 0)))
}

// The 64 bits of a number.
#[tactic(auto, using(crate::proofs::Says::bits_are))]
fn bits(z: i64) -> u64
    ensures { result ≡ residue (2 ^ 64) z }
{
    z.cast_unsigned()
}

// 00 and a number in eight bytes, or a refusal in one.
fn numbered(says: Result<i64, Refusal>, held: &[u8]) -> Option<bool>
    ensures { result ≡ agreement (Some (number_says (telling says))) held.now }
{
    match says {
        Ok(z) => {
            let Some(at) = match_run(held, 0, &[0]) else {
                return Some(false);
            };
            Some(&le_bytes(bits(z))[..] == rest(held, at))
        }
        Err(why) => Some(&[u8::from(why)][..] == held),
    }
}

// An id and a store: the number of the attribute's value.
#[tactic(auto, unfolding(crate::specs::Ours::of_number))]
pub(crate) fn of_number(input: &[u8], held: &[u8]) -> Option<bool>
    ensures { result ≡ agreement (of_number input.now) held.now }
{
    if input.len() < 2 {
        return None;
    }
    numbered(number_of(rest(input, 2), name_at_start(input)), held)
}

// The status of a write, and then the store as it is afterwards; `copy` is for that store.
fn written(
    name: Name,
    type_id: TypeId,
    value: &[u8],
    store: &[u8],
    held: &[u8],
    copy: &mut [u8],
) -> Option<bool>
    requires { length copy.old ≡ length store.now }
    ensures { result ≡ agreement (Some (write_says (write_of 8 store.now name.0 type_id.0 value.now))) held.now }
{
    put_run(copy, 0, store);
    let status = write(copy, name, type_id, value);
    let Some(at) = match_run(held, 0, &[u8::from(status)]) else {
        return Some(false);
    };
    Some(&*copy == rest(held, at))
}

// An id, a type, the length of a value in two bytes, the value, and a store: one write.
pub(crate) fn of_write(input: &[u8], held: &[u8]) -> Option<bool>
    requires { length input.now ≤ 4608 }
    ensures { result ≡ agreement (of_write input.now) held.now }
{
    let n = u16_at(input, 3) as usize;
    if input.len() < 5 + n {
        return None;
    }
    let store = rest(input, 5 + n);
    let k = store.len();
    let mut copy = blank();
    written(
        name_at_start(input),
        TypeId(input[2]),
        part(input, 5, n),
        store,
        held,
        &mut copy[..k],
    )
}
