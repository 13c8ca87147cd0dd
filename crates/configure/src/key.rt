// What an attribute's entry in the reporting table is found by.
ghost use Rattle.std.specs.Prelude.{◌≡◌};
ghost use Rattle.configure.specs.Request.{key_for};

use frame::header::ZclHeader;
use reporting::entry::Key;
use store::lookup::cluster_of;
use types::ids::AttributeId;

// The store's cluster, and the id.
pub(crate) fn key_for(store: &[u8], request: ZclHeader, id: AttributeId) -> Key
    ensures { result ≡ key_for store.now request id.0 }
{
    Key {
        cluster: cluster_of(store),
        attribute: id,
    }
}
