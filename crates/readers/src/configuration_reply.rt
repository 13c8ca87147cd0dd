// The reply to Read Reporting Configuration (09; ZCL 2.5.10).
ghost use Rattle.std.specs.Prelude.{◌≡◌};
ghost use Rattle.readers.specs.Reading.{counted, kth};
ghost use Rattle.readers.specs.Replies.{setting_record, configuration_reply_of};
ghost use Rattle.readers.specs.Answers.{configuration_record_is, record_is};

use super::layout::Layout;
use super::pass::sweep_records;
use configure::change::change_width;
use frame::answer::Refusal;
use frame::command_identifier::CommandIdentifier;
use reporting::entry::ReportingConfig;
use types::ids::{AttributeId, TypeId};
use types::number::{byte_at, u16_at, unsigned_at};

#[derive(Clone, Copy)]
pub enum ConfigurationReplyRecord {
    Setting {
        direction: u8,
        id: AttributeId,
        type_id: TypeId,
        config: ReportingConfig,
    },
    Failure {
        status: u8,
        direction: u8,
        id: AttributeId,
    },
}

// How many records the reply has.
#[tactic(auto, using(crate::proofs::Records::told_records), unfolding(crate::specs::Replies::configuration_reply_of))]
pub fn check_configuration_reply(frame: &[u8]) -> Result<usize, Refusal>
    ensures { result ≡ counted (configuration_reply_of frame.now) }
{
    let swept = sweep_records(
        frame,
        CommandIdentifier::ReadReportingConfigurationResponse,
        Layout::Setting,
        0,
    )?;
    Ok(swept.count)
}

// The record in these bytes.
#[tactic(auto, using(configure::proofs::Widths::width_least), unfolding(crate::specs::Replies::setting_record))]
fn setting_in(part: &[u8]) -> ConfigurationReplyRecord
    ensures { configuration_record_is result ≡ setting_record part.now }
{
    let status = byte_at(part, 0);
    let direction = byte_at(part, 1);
    let id = AttributeId(u16_at(part, 2));
    if status != 0 {
        return ConfigurationReplyRecord::Failure {
            status,
            direction,
            id,
        };
    }
    let type_id = TypeId(byte_at(part, 4));
    let config = ReportingConfig {
        min_interval: u16_at(part, 5),
        max_interval: u16_at(part, 7),
        reportable_change: unsigned_at(part, 9, change_width(type_id)),
        unsigned: false,
    };
    ConfigurationReplyRecord::Setting {
        direction,
        id,
        type_id,
        config,
    }
}

// Record k of the reply, if it has so many.
#[tactic(auto, using(crate::proofs::Records::told_records, crate::proofs::SpanSizes::span_within), unfolding(crate::specs::Replies::configuration_reply_of))]
pub fn configuration_reply_record(
    frame: &[u8],
    k: usize,
) -> Result<Option<ConfigurationReplyRecord>, Refusal>
    ensures { record_is configuration_record_is result ≡ kth k (configuration_reply_of frame.now) }
{
    let swept = sweep_records(
        frame,
        CommandIdentifier::ReadReportingConfigurationResponse,
        Layout::Setting,
        k,
    )?;
    let Some(span) = swept.kth else {
        return Ok(None);
    };
    Ok(Some(setting_in(span.bytes_in(frame))))
}
