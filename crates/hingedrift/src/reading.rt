// The readers' functions: for each reply, a check of the whole frame and record k of a frame that passes it. Results are set to 0 first,
// so that a refusal leaves zeros, and a frame without a record k as well.
ghost use Rattle.std.specs.Prelude.{◌≡◌};
ghost use Rattle.readers.specs.Told.{told, count_told, value_as, value_fields, read_as, report_as, write_as, configure_as, setting_as, sized_as, discover_as, response_as};
ghost use Rattle.hingedrift.specs.Reading.{read_checked, write_checked, configure_checked, configuration_checked, report_checked, discover_checked, read_recorded, report_recorded, write_recorded, configure_recorded, configuration_recorded, discover_recorded, response_told};

use frame::answer::Refusal;
use readers::configuration_reply::{
    ConfigurationReplyRecord, check_configuration_reply, configuration_reply_record,
};
use readers::configure_reply::{check_configure_reply, configure_reply_record};
use readers::default_reply::read_default_response;
use readers::discover_reply::{check_discover_reply, discover_reply_record};
use readers::read_reply::{ReadReplyRecord, check_read_reply, read_reply_record};
use readers::report_frame::{check_report_frame, report_frame_record};
use readers::value::ValueIn;
use readers::write_reply::{check_write_reply, write_reply_record};

// Hands over a count.
fn hand_count(count: Result<usize, Refusal>, records: &mut usize) -> u8
    ensures { told result records.new ≡ count_told count }
{
    *records = 0;
    match count {
        Ok(n) => {
            *records = n;
            0
        }
        Err(why) => u8::from(why),
    }
}

// Hands over a value: 1 through `numbered` where its type has a number.
fn hand_value(
    v: ValueIn,
    type_id: &mut u8,
    value: &mut usize,
    value_len: &mut usize,
    numbered: &mut u8,
    number: &mut i64,
)
    ensures { value_as type_id.new value.new value_len.new numbered.new number.new ≡ value_fields v }
{
    let code = v.type_id;
    *type_id = code.0;
    *value = v.start;
    *value_len = v.len;
    *numbered = 0;
    *number = 0;
    if let Some(z) = v.number {
        *numbered = 1;
        *number = z;
    }
}

// The reply to Read Attributes.
#[unsafe(no_mangle)]
pub extern "C" fn hd_read_check(frame: &[u8], records: &mut usize) -> u8
    ensures { told result records.new ≡ read_checked frame.now }
{
    hand_count(check_read_reply(frame), records)
}

#[unsafe(no_mangle)]
pub extern "C" fn hd_read_record(
    frame: &[u8],
    k: usize,
    found: &mut u8,
    id: &mut u16,
    status: &mut u8,
    type_id: &mut u8,
    value: &mut usize,
    value_len: &mut usize,
    numbered: &mut u8,
    number: &mut i64,
) -> u8
    ensures { told result (read_as found.new id.new status.new (value_as type_id.new value.new value_len.new numbered.new number.new)) ≡ read_recorded frame.now k }
{
    *found = 0;
    *id = 0;
    *status = 0;
    *type_id = 0;
    *value = 0;
    *value_len = 0;
    *numbered = 0;
    *number = 0;
    match read_reply_record(frame, k) {
        Ok(
            Some(
                ReadReplyRecord::Value {
                    id: attribute,
                    value: v,
                },
            ),
        ) => {
            *found = 1;
            *id = attribute.0;
            hand_value(v, type_id, value, value_len, numbered, number);
            0
        }
        Ok(
            Some(
                ReadReplyRecord::Failure {
                    id: attribute,
                    status: why,
                },
            ),
        ) => {
            *found = 1;
            *id = attribute.0;
            *status = why;
            0
        }
        Ok(None) => 0,
        Err(why) => u8::from(why),
    }
}

// The reply to Write Attributes and Write Attributes Undivided: no failure is success.
#[unsafe(no_mangle)]
pub extern "C" fn hd_write_check(frame: &[u8], failures: &mut usize) -> u8
    ensures { told result failures.new ≡ write_checked frame.now }
{
    hand_count(check_write_reply(frame), failures)
}

#[unsafe(no_mangle)]
pub extern "C" fn hd_write_record(
    frame: &[u8],
    k: usize,
    found: &mut u8,
    status: &mut u8,
    id: &mut u16,
) -> u8
    ensures { told result (write_as found.new status.new id.new) ≡ write_recorded frame.now k }
{
    *found = 0;
    *status = 0;
    *id = 0;
    match write_reply_record(frame, k) {
        Ok(Some(failure)) => {
            *found = 1;
            *status = failure.status;
            *id = failure.id.0;
            0
        }
        Ok(None) => 0,
        Err(why) => u8::from(why),
    }
}

// The reply to Configure Reporting: no failure is success.
#[unsafe(no_mangle)]
pub extern "C" fn hd_configure_check(frame: &[u8], failures: &mut usize) -> u8
    ensures { told result failures.new ≡ configure_checked frame.now }
{
    hand_count(check_configure_reply(frame), failures)
}

#[unsafe(no_mangle)]
pub extern "C" fn hd_configure_record(
    frame: &[u8],
    k: usize,
    found: &mut u8,
    status: &mut u8,
    direction: &mut u8,
    id: &mut u16,
) -> u8
    ensures { told result (configure_as found.new status.new direction.new id.new) ≡ configure_recorded frame.now k }
{
    *found = 0;
    *status = 0;
    *direction = 0;
    *id = 0;
    match configure_reply_record(frame, k) {
        Ok(Some(failure)) => {
            *found = 1;
            *status = failure.status;
            *direction = failure.direction;
            *id = failure.id.0;
            0
        }
        Ok(None) => 0,
        Err(why) => u8::from(why),
    }
}

// The reply to Read Reporting Configuration.
#[unsafe(no_mangle)]
pub extern "C" fn hd_configuration_check(frame: &[u8], records: &mut usize) -> u8
    ensures { told result records.new ≡ configuration_checked frame.now }
{
    hand_count(check_configuration_reply(frame), records)
}

#[unsafe(no_mangle)]
pub extern "C" fn hd_configuration_record(
    frame: &[u8],
    k: usize,
    found: &mut u8,
    status: &mut u8,
    direction: &mut u8,
    id: &mut u16,
    type_id: &mut u8,
    minimum: &mut u16,
    maximum: &mut u16,
    change: &mut u64,
) -> u8
    ensures { told result (setting_as (configure_as found.new status.new direction.new id.new) type_id.new minimum.new maximum.new change.new) ≡ configuration_recorded frame.now k }
{
    *found = 0;
    *status = 0;
    *direction = 0;
    *id = 0;
    *type_id = 0;
    *minimum = 0;
    *maximum = 0;
    *change = 0;
    match configuration_reply_record(frame, k) {
        Ok(
            Some(
                ConfigurationReplyRecord::Setting {
                    direction: way,
                    id: attribute,
                    type_id: code,
                    config,
                },
            ),
        ) => {
            *found = 1;
            *direction = way;
            *id = attribute.0;
            *type_id = code.0;
            *minimum = config.min_interval;
            *maximum = config.max_interval;
            *change = config.reportable_change;
            0
        }
        Ok(
            Some(
                ConfigurationReplyRecord::Failure {
                    status: why,
                    direction: way,
                    id: attribute,
                },
            ),
        ) => {
            *found = 1;
            *status = why;
            *direction = way;
            *id = attribute.0;
            0
        }
        Ok(None) => 0,
        Err(why) => u8::from(why),
    }
}

// The reply to Discover Attributes: 1 through `complete` where none was left out.
#[unsafe(no_mangle)]
pub extern "C" fn hd_discover_check(frame: &[u8], complete: &mut u8, records: &mut usize) -> u8
    ensures { told result (sized_as complete.new records.new) ≡ discover_checked frame.now }
{
    *complete = 0;
    *records = 0;
    match check_discover_reply(frame) {
        Ok(list) => {
            *complete = list.complete;
            *records = list.count;
            0
        }
        Err(why) => u8::from(why),
    }
}

#[unsafe(no_mangle)]
pub extern "C" fn hd_discover_record(
    frame: &[u8],
    k: usize,
    found: &mut u8,
    id: &mut u16,
    type_id: &mut u8,
) -> u8
    ensures { told result (discover_as found.new id.new type_id.new) ≡ discover_recorded frame.now k }
{
    *found = 0;
    *id = 0;
    *type_id = 0;
    match discover_reply_record(frame, k) {
        Ok(Some(attribute)) => {
            *found = 1;
            *id = attribute.id.0;
            *type_id = attribute.type_id.0;
            0
        }
        Ok(None) => 0,
        Err(why) => u8::from(why),
    }
}

// A Default Response: the command that it answers, and the status.
#[unsafe(no_mangle)]
pub extern "C" fn hd_default_response(frame: &[u8], command: &mut u8, status: &mut u8) -> u8
    ensures { told result (response_as command.new status.new) ≡ response_told frame.now }
{
    *command = 0;
    *status = 0;
    match read_default_response(frame) {
        Ok(response) => {
            *command = response.command.0;
            *status = response.status;
            0
        }
        Err(why) => u8::from(why),
    }
}

// A Report Attributes frame.
#[unsafe(no_mangle)]
pub extern "C" fn hd_report_check(frame: &[u8], records: &mut usize) -> u8
    ensures { told result records.new ≡ report_checked frame.now }
{
    hand_count(check_report_frame(frame), records)
}

#[unsafe(no_mangle)]
pub extern "C" fn hd_report_record(
    frame: &[u8],
    k: usize,
    found: &mut u8,
    id: &mut u16,
    type_id: &mut u8,
    value: &mut usize,
    value_len: &mut usize,
    numbered: &mut u8,
    number: &mut i64,
) -> u8
    ensures { told result (report_as found.new id.new (value_as type_id.new value.new value_len.new numbered.new number.new)) ≡ report_recorded frame.now k }
{
    *found = 0;
    *id = 0;
    *type_id = 0;
    *value = 0;
    *value_len = 0;
    *numbered = 0;
    *number = 0;
    match report_frame_record(frame, k) {
        Ok(Some(record)) => {
            *found = 1;
            *id = record.id.0;
            hand_value(record.value, type_id, value, value_len, numbered, number);
            0
        }
        Ok(None) => 0,
        Err(why) => u8::from(why),
    }
}
