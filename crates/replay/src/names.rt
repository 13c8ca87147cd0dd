// The types that have a name, held to what was recorded.
ghost use Rattle.std.specs.Prelude.{◌≡◌};
ghost use Rattle.replay.specs.Ours.{agreement};
ghost use Rattle.replay.specs.Names.{named, of_names};

use types::ids::TypeId;

// The codes of the named types, in their order.
#[tactic(auto, unfolding(crate::specs::Names::named, crate::specs::Names::known_from, types::specs::Ids::shape_of, types::specs::Ids::size_of))]
fn codes() -> [u8; 55]
    ensures { result ≡ named }
{
    [
        TypeId::NO_DATA,
        TypeId::DATA8,
        TypeId::DATA16,
        TypeId::DATA24,
        TypeId::DATA32,
        TypeId::DATA40,
        TypeId::DATA48,
        TypeId::DATA56,
        TypeId::DATA64,
        TypeId::BOOLEAN,
        TypeId::BITMAP8,
        TypeId::BITMAP16,
        TypeId::BITMAP24,
        TypeId::BITMAP32,
        TypeId::BITMAP40,
        TypeId::BITMAP48,
        TypeId::BITMAP56,
        TypeId::BITMAP64,
        TypeId::UINT8,
        TypeId::UINT16,
        TypeId::UINT24,
        TypeId::UINT32,
        TypeId::UINT40,
        TypeId::UINT48,
        TypeId::UINT56,
        TypeId::UINT64,
        TypeId::INT8,
        TypeId::INT16,
        TypeId::INT24,
        TypeId::INT32,
        TypeId::INT40,
        TypeId::INT48,
        TypeId::INT56,
        TypeId::INT64,
        TypeId::ENUM8,
        TypeId::ENUM16,
        TypeId::SEMI_PRECISION,
        TypeId::SINGLE_PRECISION,
        TypeId::DOUBLE_PRECISION,
        TypeId::OCTET_STRING,
        TypeId::CHARACTER_STRING,
        TypeId::LONG_OCTET_STRING,
        TypeId::LONG_CHARACTER_STRING,
        TypeId::ARRAY,
        TypeId::STRUCTURE,
        TypeId::SET,
        TypeId::BAG,
        TypeId::TIME_OF_DAY,
        TypeId::DATE,
        TypeId::UTC_TIME,
        TypeId::CLUSTER_ID,
        TypeId::ATTRIBUTE_ID,
        TypeId::BACNET_OID,
        TypeId::IEEE_ADDRESS,
        TypeId::SECURITY_KEY,
    ]
}

// How many types have a name: their codes.
pub(crate) fn of_names(input: &[u8], held: &[u8]) -> Option<bool>
    ensures { result ≡ agreement (of_names input.now) held.now }
{
    if &[55][..] != input {
        return None;
    }
    Some(&codes()[..] == held)
}
