// What ours says to calls on a table by value, held to what was recorded.
ghost use Rattle.std.specs.Prelude.{◌≡◌, [], ◌∷◌, ◌/◌, length, take};
ghost use Rattle.reporting.specs.Carried.{table_length};
ghost use Rattle.reporting.specs.Table.{table_of, holding, handed_back, zero_config, change_told, report_told, setting_told, length_told};
ghost use Rattle.replay.specs.Bytes.{same as same_bytes};
ghost use Rattle.replay.specs.Ours.{agreement};
ghost use Rattle.replay.specs.Methods.{key_in, config_in, time_in, change_says, report_says, length_says, config_says, setting_says};
ghost use Rattle.replay.specs.Methods.{changing, called, table_says, history as history_of, calls_in, are_calls, of_history};
ghost use Rattle.replay.specs.Inside.{matched, given, found as found_at};

use super::bytes::{match_run, rest};
use super::cases::low;
use frame::answer::Refusal;
use reporting::carried::{SLOT, TABLE_BYTES, write_table};
use reporting::entry::{Key, ReportingConfig};
use reporting::table::{Changed, ReportingTable};
use store::layout::part;
use types::ids::{AttributeId, ClusterId};
use types::number::{byte_at, le_bytes, signed_at, u16_at, unsigned_at};

// The bytes of a call.
const CALL: usize = 17;

// The table that a call leaves, and where its answer ends, if it was recorded.
#[derive(Clone, Copy)]
struct Given {
    table: ReportingTable,
    at: Option<usize>,
}

#[tactic(auto, unfolding(crate::specs::Methods::key_in))]
fn key_in(call: &[u8]) -> Key
    ensures { result ≡ key_in call.now }
{
    Key {
        cluster: ClusterId(u16_at(call, 1)),
        attribute: AttributeId(u16_at(call, 3)),
    }
}

#[tactic(auto, unfolding(crate::specs::Methods::config_in))]
fn config_in(call: &[u8]) -> ReportingConfig
    ensures { result ≡ config_in call.now }
{
    ReportingConfig {
        min_interval: u16_at(call, 5),
        max_interval: u16_at(call, 7),
        reportable_change: unsigned_at(call, 9, 8),
        unsigned: false,
    }
}

fn time_in(call: &[u8]) -> u32
    ensures { result ≡ time_in call.now }
{
    let low = u16_at(call, 5) as u32;
    let high = u16_at(call, 7) as u32;
    low + 65536 * high
}

// The number, and whether a change was accepted or a report is due.
fn flag_bytes(answer: Result<bool, Refusal>) -> [u8; 2]
    ensures change { result ≡ change_says (change_told answer) }
    ensures report { result ≡ report_says (report_told answer) }
{
    match answer {
        Ok(flag) => [0, u8::from(flag)],
        Err(why) => [u8::from(why), 0],
    }
}

fn length_bytes(entries: Result<usize, Refusal>) -> [u8; 2]
    ensures { result ≡ length_says (length_told entries) }
{
    match entries {
        Ok(n) => [0, low(n)],
        Err(why) => [u8::from(why), 0],
    }
}

// Where the number, a byte and the three numbers of a configuration end, if they stand at `at`.
#[tactic(auto, using(crate::proofs::Calls::config_off, crate::proofs::Calls::config_on))]
fn match_config(
    held: &[u8],
    at: usize,
    number: u8,
    found: u8,
    config: ReportingConfig,
) -> Option<usize>
    ensures { result ≡ matched held.now at (number ∷ found ∷ config_says config) }
{
    let min = config.min_interval as usize;
    let max = config.max_interval as usize;
    let head = [
        number,
        found,
        low(min),
        low(min / 256),
        low(max),
        low(max / 256),
    ];
    let change = le_bytes(config.reportable_change);
    let next = match_run(held, at, &head)?;
    match_run(held, next, &change)
}

fn no_config() -> ReportingConfig
    ensures { result ≡ zero_config }
{
    ReportingConfig {
        min_interval: 0,
        max_interval: 0,
        reportable_change: 0,
        unsigned: false,
    }
}

fn match_setting(
    held: &[u8],
    at: usize,
    setting: Result<Option<ReportingConfig>, Refusal>,
) -> Option<usize>
    ensures { result ≡ matched held.now at (setting_says (setting_told setting)) }
{
    match setting {
        Ok(Some(config)) => match_config(held, at, 0, 1, config),
        Ok(None) => match_config(held, at, 0, 0, no_config()),
        Err(why) => match_config(held, at, u8::from(why), 0, no_config()),
    }
}

// A call that may change the table.
fn changed(held: &[u8], at: usize, call: Changed) -> Given
    ensures { given result ≡ found_at held.now at (changing (handed_back call)) }
{
    Given {
        table: call.table,
        at: match_run(held, at, &flag_bytes(call.answer)),
    }
}

// The call, and its answer looked for at `at`.
fn give(table: ReportingTable, call: &[u8], held: &[u8], at: usize) -> Given
    ensures { given result ≡ found_at held.now at (called call.now (table_of table)) }
{
    let key = key_in(call);
    let time = time_in(call);
    let value = signed_at(call, 9, 8);
    match byte_at(call, 0) {
        0 => changed(held, at, table.configure(key, config_in(call))),
        1 => changed(held, at, table.clear(key)),
        2 => changed(held, at, table.mark(key, time, value)),
        3 => Given {
            table,
            at: match_run(held, at, &flag_bytes(table.ask(key, time, value))),
        },
        4 => Given {
            table,
            at: match_setting(held, at, table.configuration(key)),
        },
        _ => Given {
            table,
            at: match_run(held, at, &length_bytes(table.len())),
        },
    }
}

// Writes a table's bytes, and says how many of them are used.
pub(crate) fn lay(bytes: &mut [u8], table: ReportingTable) -> usize
    requires { length bytes.old ≡ table_length }
    ensures { take result bytes.new ≡ table_says (table_of table) }
{
    if write_table(bytes, table) {
        return 1 + SLOT * table.count;
    }
    0
}

#[tactic(auto, using(crate::proofs::Matches::pointwise_same))]
fn is_left(table: ReportingTable, held: &[u8]) -> bool
    ensures { result ≡ same_bytes (table_says (table_of table)) held.now }
{
    let mut bytes = [0u8; TABLE_BYTES];
    let n = lay(&mut bytes, table);
    part(&bytes, 0, n) == held
}

// Whether all are calls: each has one of the six operations.
fn are_calls(input: &[u8]) -> bool
    ensures { result ≡ are_calls (calls_in (length input.now / 17) input.now) }
{
    let (calls, _) = input.as_chunks::<CALL>();
    calls.iter().all(|call| call[0] <= 5)
}

// The calls from an empty table on, each answer behind the one before it, and the table at the end.
#[tactic(auto, using(crate::proofs::Calls::follow_more, crate::proofs::Calls::follow_off, crate::proofs::Calls::follow_done))]
fn history(input: &[u8], held: &[u8]) -> bool
    ensures { result ≡ same_bytes (history_of (calls_in (length input.now / 17) input.now) (holding [])) held.now }
{
    let (calls, _) = input.as_chunks::<CALL>();
    let mut table = ReportingTable::new();
    let mut at = 0;
    for call in calls {
        let next = give(table, call, held, at);
        let Some(end) = next.at else {
            return false;
        };
        table = next.table;
        at = end;
    }
    is_left(table, rest(held, at))
}

// Calls of 17 bytes each.
#[tactic(auto, unfolding(crate::specs::Methods::of_history))]
pub(crate) fn of_history(input: &[u8], held: &[u8]) -> Option<bool>
    ensures { result ≡ agreement (of_history input.now) held.now }
{
    if input.len() % CALL != 0 || !are_calls(input) {
        return None;
    }
    Some(history(input, held))
}
