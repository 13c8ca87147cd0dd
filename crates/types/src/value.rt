// The number of a value and of a reportable change, by the class of its type.
ghost use Rattle.std.specs.Prelude.{◌≡◌};
ghost use Rattle.types.specs.Value.{number_at, change_at};

use super::ids::TypeId;
use super::number::{bits_i64, magnitude, sign_extended, unsigned_at};

// The number of the value of a type at `at`, if the type has one. Only an Int type is read with a sign.
pub fn number_at(s: &[u8], at: usize, type_id: TypeId) -> Option<i64>
    ensures { result ≡ number_at s.now at type_id.0 }
{
    let w = type_id.fixed_size()?;
    if 8 < w {
        return None;
    }
    let n = unsigned_at(s, at, w);
    if type_id.is_signed() {
        return Some(sign_extended(n, w));
    }
    Some(bits_i64(n))
}

// The reportable change of a type at `at`: an Int's loses its sign, a float's is 0.
pub fn change_at(s: &[u8], at: usize, type_id: TypeId) -> u64
    ensures { result ≡ change_at s.now at type_id.0 }
{
    let Some(w) = type_id.fixed_size() else {
        return 0;
    };
    if type_id.is_float() {
        return 0;
    }
    let n = unsigned_at(s, at, w);
    if type_id.is_signed() {
        return magnitude(sign_extended(n, w));
    }
    n
}
