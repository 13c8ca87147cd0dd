// The reporting table's operations on the bytes that carry it. They are checked whole; then the slots in question are read where they
// lie, and only what changes is written. What each says is what the method by value says of the table that the bytes are.
ghost use Rattle.std.specs.Prelude.{◌≡◌};
ghost use Rattle.reporting.specs.Table.{report_told, setting_told};
ghost use Rattle.reporting.specs.Carried.{written};
ghost use Rattle.reporting.specs.Lent.{ask_lent, configuration_lent, mark_lent, left_as, configure_lent, clear_lent};

use super::carried::is_table;
use super::entry::{Key, ReportingConfig};
use super::held::{TableMut, TableRef};
use frame::answer::Refusal;

// Whether a report of `value` is due at `now`. The parameter hides the clauses' `now`: a clause says `.now`.
pub fn ask_lent(bytes: &[u8], key: Key, now: u32, value: i64) -> Result<bool, Refusal>
    ensures { report_told result ≡ ask_lent key now value bytes.now }
{
    if !is_table(bytes) {
        return Err(Refusal::NotATable);
    }
    Ok(TableRef { bytes }.due(key, now, value))
}

// The key's configuration, if it has an entry.
pub fn configuration_lent(bytes: &[u8], key: Key) -> Result<Option<ReportingConfig>, Refusal>
    ensures { setting_told result ≡ configuration_lent key bytes.now }
{
    if !is_table(bytes) {
        return Err(Refusal::NotATable);
    }
    Ok(TableRef { bytes }.configuration(key))
}

// Keeps the time and the value of a report, and says whether the bytes were a table; otherwise they are as they were.
pub fn mark_lent(bytes: &mut [u8], key: Key, now: u32, value: i64) -> bool
    ensures { written result bytes.new ≡ mark_lent key now value bytes.old }
{
    if !is_table(bytes) {
        return false;
    }
    TableMut { bytes }.mark(key, now, value);
    true
}

// Sets the key's configuration where the bytes are a table, says whether there was room, and refuses other bytes.
pub fn configure_lent(bytes: &mut [u8], key: Key, config: ReportingConfig) -> Result<bool, Refusal>
    ensures { left_as result bytes.new ≡ configure_lent key config bytes.old }
{
    if !is_table(bytes) {
        return Err(Refusal::NotATable);
    }
    Ok(TableMut { bytes }.configure(key, config))
}

// Takes the key's entry out, and says whether the bytes were a table; otherwise they are as they were.
pub fn clear_lent(bytes: &mut [u8], key: Key) -> bool
    ensures { written result bytes.new ≡ clear_lent key bytes.old }
{
    if !is_table(bytes) {
        return false;
    }
    TableMut { bytes }.clear(key);
    true
}
