// The records of a configure request.
ghost use Rattle.std.specs.Prelude.{◌≡◌, ◌+◌, ◌≤◌, length};
ghost use Rattle.configure.specs.Request.{config_at, configure_at};
ghost use Rattle.configure.specs.Inside.{item_of};

use super::change::{change_of, change_width};
use reporting::entry::ReportingConfig;
use types::ids::{AttributeId, TypeId};
use types::number::u16_at;

// The direction of a record for what this device reports; with any other it is for what the device receives.
pub(crate) const DIRECTION_REPORTED: u8 = 0x00;

// A record of the request, and where the next one starts.
#[derive(Clone, Copy)]
pub(crate) enum Record {
    // Of what this device receives: the two bytes of timeout are passed over.
    Received {
        direction: u8,
        id: AttributeId,
        end: usize,
    },
    Reported {
        id: AttributeId,
        type_id: TypeId,
        config: ReportingConfig,
        end: usize,
    },
}

// Minimum, maximum and change at `at`, behind a type, and the type's mark. Not public: the four bytes of the intervals must be there.
fn config_at(body: &[u8], at: usize, type_id: TypeId) -> ReportingConfig
    requires { at + 4 ≤ length body.now }
    ensures { result ≡ config_at body.now at type_id.0 }
{
    ReportingConfig {
        min_interval: u16_at(body, at),
        max_interval: u16_at(body, at + 2),
        reportable_change: change_of(body, at + 4, type_id),
        unsigned: !type_id.is_signed(),
    }
}

// The record at a place, if it is not cut: direction, id, and a timeout; or, for direction 0, type, minimum, maximum and change.
#[tactic(auto, using(crate::proofs::Items::record_short, crate::proofs::Items::received_is, crate::proofs::Items::reported_short, crate::proofs::Items::reported_is))]
pub(crate) fn next_record(body: &[u8], at: usize) -> Option<Record>
    ensures { item_of result ≡ configure_at body.now at }
{
    let left = body.len().checked_sub(at)?;
    if left < 5 {
        return None;
    }
    let direction = body[at];
    let id = AttributeId(u16_at(body, at + 1));
    if direction != DIRECTION_REPORTED {
        return Some(Record::Received {
            direction,
            id,
            end: at + 5,
        });
    }
    if left < 8 {
        return None;
    }
    let type_id = TypeId(body[at + 3]);
    let width = change_width(type_id);
    if left - 8 < width {
        return None;
    }
    Some(Record::Reported {
        id,
        type_id,
        config: config_at(body, at + 4, type_id),
        end: at + 8 + width,
    })
}
