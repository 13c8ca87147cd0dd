// One configuration: what is to be done with the table, judged without it.
ghost use Rattle.std.specs.Prelude.{◌≡◌};
ghost use Rattle.store.specs.Contents.{name_of, find_of};
ghost use Rattle.reporting.specs.Table.{capacity};
ghost use Rattle.reporting.specs.declared.entry.Wish.TheVariants.{ToSet};
ghost use Rattle.reporting.specs.Wish.{status_w};
ghost use Rattle.configure.specs.Request.{key_for};
ghost use Rattle.configure.specs.Configure.{checked, setting};
ghost use Rattle.configure.specs.Inside.{Judges};

use super::key::key_for;
use frame::header::ZclHeader;
use frame::status::Status;
use reporting::entry::{Key, ReportingConfig, Wish};
use store::lookup::{find, is_reportable, name_of};
use types::ids::{AttributeId, TypeId};

// What is to be done with the table.
#[derive(Clone, Copy)]
pub(crate) enum Deed {
    Clears(Key),
    Sets(Key, ReportingConfig),
}

// By its intervals: what is cleared, what is wrong, 87, and what is set.
#[tactic(auto, unfolding(crate::specs::Configure::setting))]
fn wished(key: Key, config: ReportingConfig) -> Result<Deed, Status>
    ensures { Judges (setting capacity key config) result }
{
    match config.wish() {
        Wish::ToClear => Ok(Deed::Clears(key)),
        Wish::ToRefuse => Err(Status::InvalidValue),
        Wish::ToSet => Ok(Deed::Sets(key, config)),
    }
}

// Checks a configuration against the store, and then its intervals: 86, 8c, 8d, 87.
pub(crate) fn judge(
    store: &[u8],
    request: ZclHeader,
    id: AttributeId,
    type_id: TypeId,
    config: ReportingConfig,
) -> Result<Deed, Status>
    ensures { Judges (λ l. checked (find_of 8 store.now (name_of request.manufacturer_code.0 id.0)) type_id.0 l (setting capacity (key_for store.now request id.0) config l)) result }
{
    let name = name_of(request.manufacturer_code, id);
    let a = find(store, name).ok_or(Status::UnsupportedAttribute)?;
    if !is_reportable(a) {
        return Err(Status::UnreportableAttribute);
    }
    if a.type_id.0 != type_id.0 {
        return Err(Status::InvalidDataType);
    }
    wished(key_for(store, request, id), config)
}

// What a configuration that was to be set came to: 89 where there was no room.
pub(crate) fn status_of(accepted: bool) -> Status
    ensures { result ≡ status_w ToSet accepted }
{
    if accepted {
        Status::Success
    } else {
        Status::InsufficientSpace
    }
}
