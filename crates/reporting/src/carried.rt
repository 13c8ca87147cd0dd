// The reporting table as bytes that a caller lends: docs/TABLE.md has the layout. Bytes in any other form are no table.
ghost use Rattle.std.specs.Prelude.{◌≡◌, Some, map, true, false, ◌+◌, ◌≤◌, length, take, drop};
ghost use Rattle.std.proofs.lemmas.List.Edits.{sets};
ghost use Rattle.reporting.specs.Table.{capacity};
ghost use Rattle.reporting.specs.Carried.{widths, laid, numbers_in, rows_in, if_marked, numbers_of, entry_of, quieted, is_slot, are_slots, is_table, reading, table_read, read_t, written, write_t, slot_bytes, table_length};
ghost use Rattle.reporting.specs.Claims.RoundTrip.{Clean};

use super::distance::bits_u64;
use super::entry::{Entry, Key, ReportingConfig};
use super::numbers::{put_u16_in, put_u32_in, put_u64_in, u16_in, u32_in, u64_in};
use super::table::{LIMIT, ReportingTable};
use frame::reply::clear;
use types::ids::{AttributeId, ClusterId};
use types::number::{all_zero, bits_i64};

// The bytes of one entry.
pub const SLOT: usize = 30;

// The count's byte, and the slots.
pub const TABLE_BYTES: usize = 1 + LIMIT * SLOT;

// What is written of an entry's last report, or of its mark: 0 where there is none.
fn told_if(told: bool, n: u64) -> u64
    ensures { result ≡ if_marked told n }
{
    if told { n } else { 0 }
}

// Whether the slot at `at` is in its one form. Time and value are asked for as numbers, two loads and no loop.
fn slot_in_form(bytes: &[u8], at: usize) -> bool
    requires { at + slot_bytes ≤ length bytes.now }
    ensures { result ≡ is_slot (numbers_in widths (drop at bytes.now)) }
{
    if 1 < bytes[at + 16] {
        return false;
    }
    let flag = bytes[at + 17];
    if 1 < flag {
        return false;
    }
    if flag == 1 {
        return true;
    }
    let time = u32_in(bytes, at + 18);
    let value = u64_in(bytes, at + 22);
    time == 0 && value == 0
}

// Whether the first `count` slots are in their one form.
fn slots_in_form(bytes: &[u8], count: usize) -> bool
    requires { (count ≤ capacity) × (table_length ≤ length bytes.now) }
    ensures { result ≡ are_slots (rows_in widths count (drop 1 bytes.now)) }
{
    (0..count).all(|i| slot_in_form(bytes, 1 + SLOT * i))
}

// Whether the bytes are a table.
pub fn is_table(bytes: &[u8]) -> bool
    ensures { result ≡ is_table capacity bytes.now }
{
    if bytes.len() != TABLE_BYTES {
        return false;
    }
    let count = bytes[0] as usize;
    if LIMIT < count {
        return false;
    }
    all_zero(&bytes[1 + SLOT * count..]) && slots_in_form(bytes, count)
}

// The entry of the slot at `at`. Public for crate `saved` alone, no entry point: the slot must be there.
pub fn read_slot(bytes: &[u8], at: usize) -> Entry
    requires { at + slot_bytes ≤ length bytes.now }
    ensures { result ≡ entry_of (numbers_in widths (drop at bytes.now)) }
{
    let cluster = u16_in(bytes, at);
    let attribute = u16_in(bytes, at + 2);
    let min_interval = u16_in(bytes, at + 4);
    let max_interval = u16_in(bytes, at + 6);
    let reportable_change = u64_in(bytes, at + 8);
    let mark = bytes[at + 16];
    let flag = bytes[at + 17];
    let last_time = u32_in(bytes, at + 18);
    let last_value = bits_i64(u64_in(bytes, at + 22));
    Entry {
        key: Key {
            cluster: ClusterId(cluster),
            attribute: AttributeId(attribute),
        },
        config: ReportingConfig {
            min_interval,
            max_interval,
            reportable_change,
            unsigned: mark == 1,
        },
        marked: flag == 1,
        last_time,
        last_value,
    }
}

// Writes the slot of an entry at `at`. Any entry that code holds is within the widths, as its fields are of these types.
// Public for crate `saved` alone, no entry point: the slot must be there.
pub fn write_slot(bytes: &mut [u8], at: usize, e: Entry)
    requires { at + slot_bytes ≤ length bytes.old }
    ensures bytes_after { bytes.new ≡ sets bytes.old at (laid widths (numbers_of e)) }
    ensures clean { Clean (quieted e) }
{
    let key = e.key;
    let cluster = key.cluster;
    let attribute = key.attribute;
    let config = e.config;
    let last_value = e.last_value;
    put_u16_in(bytes, at, cluster.0);
    put_u16_in(bytes, at + 2, attribute.0);
    put_u16_in(bytes, at + 4, config.min_interval);
    put_u16_in(bytes, at + 6, config.max_interval);
    put_u64_in(bytes, at + 8, config.reportable_change);
    bytes[at + 16] = told_if(config.unsigned, 1) as u8;
    bytes[at + 17] = told_if(e.marked, 1) as u8;
    put_u32_in(bytes, at + 18, told_if(e.marked, e.last_time as u64) as u32);
    put_u64_in(bytes, at + 22, told_if(e.marked, bits_u64(last_value)));
}

// The table of the first `count` slots.
fn read_slots(bytes: &[u8], count: usize) -> ReportingTable
    requires { (count ≤ capacity) × (table_length ≤ length bytes.now) }
    ensures { reading (Some result) ≡ table_read true (map entry_of (rows_in widths count (drop 1 bytes.now))) }
{
    let mut table = ReportingTable::new();
    for i in 0..count {
        table.entries[i] = read_slot(bytes, 1 + SLOT * i);
    }
    table.count = count;
    table
}

// The table that the bytes are, if they are one.
pub fn read_table(bytes: &[u8]) -> Option<ReportingTable>
    ensures { reading result ≡ read_t capacity bytes.now }
{
    if !is_table(bytes) {
        return None;
    }
    let count = bytes[0] as usize;
    Some(read_slots(bytes, count))
}

// Writes the table, if it is one and the bytes have its size, and says whether; otherwise the bytes are as they were. What was written reads as
// that table; but an entry that was never marked carries no time and no value there.
pub fn write_table(bytes: &mut [u8], table: ReportingTable) -> bool
    ensures bytes_after { written result bytes.new ≡ write_t capacity table bytes.old }
    ensures read_back { result ≡ true → read_t capacity bytes.new ≡ table_read true (map quieted (take table.count table.entries)) }
{
    if bytes.len() != TABLE_BYTES {
        return false;
    }
    let count = table.count;
    if LIMIT < count {
        return false;
    }
    clear(bytes);
    bytes[0] = count as u8;
    for i in 0..count {
        write_slot(bytes, 1 + SLOT * i, table.entries[i]);
    }
    true
}
