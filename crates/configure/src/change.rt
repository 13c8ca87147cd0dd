// The change field of a configuration.
ghost use Rattle.std.specs.Prelude.{◌≡◌, cond};
ghost use Rattle.types.specs.Ids.{is_analog};
ghost use Rattle.types.specs.Value.{change_at};
ghost use Rattle.configure.specs.Request.{change_width};

use types::ids::TypeId;
use types::value::change_at;

// How many bytes the change of a type has: none where the type is not analog.
#[tactic(auto, unfolding(crate::specs::Request::change_width))]
pub fn change_width(type_id: TypeId) -> usize
    ensures { result ≡ change_width type_id.0 }
{
    if !type_id.is_analog() {
        return 0;
    }
    type_id.fixed_size().unwrap_or(0)
}

// The change of a type at `at`: 0 where the type is not analog.
pub(crate) fn change_of(body: &[u8], at: usize, type_id: TypeId) -> u64
    ensures { result ≡ cond (is_analog type_id.0) (change_at body.now at type_id.0) 0 }
{
    if !type_id.is_analog() {
        return 0;
    }
    change_at(body, at, type_id)
}
