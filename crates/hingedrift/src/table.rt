// The reporting table's functions, on the table's bytes. Results are set to 0 first, so that a refusal leaves zeros.
ghost use Rattle.std.specs.Prelude.{◌≡◌};
ghost use Rattle.hingedrift.specs.Tables.{key_as, config_of, left, no_result, configuration_as, new_left, configure_left, clear_left, mark_left, ask_left, configuration_left};

use frame::answer::Refusal;
use frame::reply::clear;
use reporting::carried::{TABLE_BYTES, is_table};
use reporting::entry::{Key, ReportingConfig};
use reporting::held::TableMut;
use reporting::lent::{ask_lent, clear_lent, configuration_lent, mark_lent};
use types::ids::{AttributeId, ClusterId};

// The key of a cluster and an attribute, as C hands them over.
fn key_of(cluster: u16, attribute: u16) -> Key
    ensures { result ≡ key_as cluster attribute }
{
    Key {
        cluster: ClusterId(cluster),
        attribute: AttributeId(attribute),
    }
}

// An empty table, which is all zeros.
#[tactic(auto, using(crate::proofs::Bridge::new_refused, crate::proofs::Bridge::new_cleared))]
#[unsafe(no_mangle)]
pub extern "C" fn hd_table_new(table: &mut [u8]) -> u8
    ensures { left result table.new no_result ≡ new_left table.old }
{
    if table.len() != TABLE_BYTES {
        return u8::from(Refusal::NotATable);
    }
    clear(table);
    0
}

// Configures an attribute: 1 through `accepted` where there was room. `mark` says whether its numbers compare as signed, 0, or unsigned, 1.
#[unsafe(no_mangle)]
pub extern "C" fn hd_configure(
    table: &mut [u8],
    cluster: u16,
    attribute: u16,
    minimum: u16,
    maximum: u16,
    change: u64,
    mark: u8,
    accepted: &mut u8,
) -> u8
    ensures { left result table.new accepted.new ≡ configure_left table.old (key_as cluster attribute) (config_of minimum maximum change mark) mark }
{
    *accepted = 0;
    if !is_table(table) {
        return u8::from(Refusal::NotATable);
    }
    if 1 < mark {
        return u8::from(Refusal::NotASavedForm);
    }
    let config = ReportingConfig {
        min_interval: minimum,
        max_interval: maximum,
        reportable_change: change,
        unsigned: mark == 1,
    };
    let mut held = TableMut { bytes: table };
    *accepted = u8::from(held.configure(key_of(cluster, attribute), config));
    0
}

// Takes an attribute's configuration out of the table.
#[unsafe(no_mangle)]
pub extern "C" fn hd_clear(table: &mut [u8], cluster: u16, attribute: u16) -> u8
    ensures { left result table.new no_result ≡ clear_left table.old (key_as cluster attribute) }
{
    if clear_lent(table, key_of(cluster, attribute)) {
        return 0;
    }
    u8::from(Refusal::NotATable)
}

// An attribute's configuration: 1 through `found` where it has one, its three numbers and its mark.
#[unsafe(no_mangle)]
pub extern "C" fn hd_configuration(
    table: &[u8],
    cluster: u16,
    attribute: u16,
    found: &mut u8,
    minimum: &mut u16,
    maximum: &mut u16,
    change: &mut u64,
    mark: &mut u8,
) -> u8
    ensures { left result table.now (configuration_as found.new minimum.new maximum.new change.new mark.new) ≡ configuration_left table.now (key_as cluster attribute) }
{
    *found = 0;
    *minimum = 0;
    *maximum = 0;
    *change = 0;
    *mark = 0;
    match configuration_lent(table, key_of(cluster, attribute)) {
        Ok(Some(config)) => {
            *found = 1;
            *minimum = config.min_interval;
            *maximum = config.max_interval;
            *change = config.reportable_change;
            *mark = u8::from(config.unsigned);
            0
        }
        Ok(None) => 0,
        Err(why) => u8::from(why),
    }
}

// Whether a report of `value` is due at `now`: 1 through `due`. The parameter hides the clauses' `now`: a clause says `.now`.
#[unsafe(no_mangle)]
pub extern "C" fn hd_ask(
    table: &[u8],
    cluster: u16,
    attribute: u16,
    now: u32,
    value: i64,
    due: &mut u8,
) -> u8
    ensures { left result table.now due.new ≡ ask_left table.now (key_as cluster attribute) now value }
{
    *due = 0;
    match ask_lent(table, key_of(cluster, attribute), now, value) {
        Ok(is_due) => {
            *due = u8::from(is_due);
            0
        }
        Err(why) => u8::from(why),
    }
}

// Keeps the time and the value of a report that was sent.
#[unsafe(no_mangle)]
pub extern "C" fn hd_mark(
    table: &mut [u8],
    cluster: u16,
    attribute: u16,
    now: u32,
    value: i64,
) -> u8
    ensures { left result table.new no_result ≡ mark_left table.old (key_as cluster attribute) now value }
{
    if mark_lent(table, key_of(cluster, attribute), now, value) {
        return 0;
    }
    u8::from(Refusal::NotATable)
}
