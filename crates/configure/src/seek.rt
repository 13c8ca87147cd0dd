// What Read Reporting Configuration looks up in the table, judged by the store alone: the table is asked in one place.
ghost use Rattle.configure.specs.Inside.{Seeks};

use super::key::key_for;
use super::record::DIRECTION_REPORTED;
use frame::header::ZclHeader;
use frame::status::Status;
use reporting::entry::Key;
use store::lookup::{find, is_reportable, name_of};
use types::ids::{AttributeId, TypeId};

// The key of the entry to be looked up, and the type beside which it is sent; or the failure that is sent without the table: 86, 8c.
#[tactic(auto, unfolding(crate::specs::Configuration::record_for, crate::specs::Configuration::record_by))]
pub(crate) fn seek(
    store: &[u8],
    request: ZclHeader,
    direction: u8,
    id: AttributeId,
) -> Result<(Key, TypeId), Status>
    ensures { Seeks store.now request direction id.0 result }
{
    let name = name_of(request.manufacturer_code, id);
    let a = find(store, name).ok_or(Status::UnsupportedAttribute)?;
    if direction != DIRECTION_REPORTED || !is_reportable(a) {
        return Err(Status::UnreportableAttribute);
    }
    Ok((key_for(store, request, id), a.type_id))
}
