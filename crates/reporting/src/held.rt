// The bytes of a table, lent. That they are one is asked once, where the value is made; from then on its type says it.
ghost use Rattle.std.specs.Prelude.{◌≡◌, true, ◌+◌, ◌≤◌, length, drop, Ok};
ghost use Rattle.std.proofs.lemmas.List.Edits.{sets};
ghost use Rattle.types.specs.Number.{zeros};
ghost use Rattle.reporting.specs.Entries.{matches, find_l, clear_l, mark_l};
ghost use Rattle.reporting.specs.Due.{due_l};
ghost use Rattle.reporting.specs.Table.{capacity, holding, setting_told, configuration_t};
ghost use Rattle.reporting.specs.Carried.{widths, numbers_in, entry_of, table_in, is_table, table_read, read_t, slot_bytes};
ghost use Rattle.reporting.specs.Inside.{kept_as, configure_in};

use super::carried::{SLOT, read_slot, write_slot};
use super::entry::{Entry, Key, ReportingConfig};
use super::numbers::u16_in;
use super::table::LIMIT;
use frame::reply::clear;

// The bytes of a table, to be read.
#[derive(Clone, Copy)]
pub struct TableRef<'a> {
    pub bytes: &'a [u8],
    pub ghost whole: { is_table capacity bytes.now ≡ true },
}

// The bytes of a table, to be changed into those of another. Whoever lent them knows what they are afterwards only where each call says that they are
// still the same ones: `same_reference`.
#[derive(Drop)]
pub struct TableMut<'a> {
    pub bytes: &'a mut [u8],
    pub ghost whole: { is_table capacity bytes.now ≡ true },
}

// Whether the slot at `at` is the key's. The attribute first: the slots of one store have one cluster.
fn slot_is_of(bytes: &[u8], at: usize, key: Key) -> bool
    requires { at + slot_bytes ≤ length bytes.now }
    ensures { result ≡ matches key (entry_of (numbers_in widths (drop at bytes.now))) }
{
    let cluster = u16_in(bytes, at);
    let attribute = u16_in(bytes, at + 2);
    attribute == key.attribute.0 && cluster == key.cluster.0
}

impl TableRef<'_> {
    // The place of the key's first slot, or the count where there is none.
    pub fn find_slot(self, key: Key) -> usize
        ensures { result ≡ find_l key (table_in self.entry.bytes.now) }
    {
        let n = self.bytes[0] as usize;
        let mut i: usize = 0;
        // A loop that gives the place by `break`: document 01 asks for this form here, by name.
        loop {
            if n <= i {
                break n;
            }
            if slot_is_of(self.bytes, 1 + SLOT * i, key) {
                break i;
            }
            i += 1;
        }
    }

    // Whether a report of `value` is due at the time.
    pub fn due(self, key: Key, time: u32, value: i64) -> bool
        ensures { result ≡ due_l key time value (table_in self.entry.bytes.now) }
    {
        let n = self.bytes[0] as usize;
        let at = self.find_slot(key);
        if n <= at {
            return false;
        }
        let e = read_slot(self.bytes, 1 + SLOT * at);
        e.due(time, value)
    }

    // The key's configuration, if it has an entry.
    pub fn configuration(self, key: Key) -> Option<ReportingConfig>
        ensures { setting_told (Ok result) ≡ configuration_t key (holding (table_in self.entry.bytes.now)) }
    {
        let n = self.bytes[0] as usize;
        let at = self.find_slot(key);
        if n <= at {
            return None;
        }
        let e = read_slot(self.bytes, 1 + SLOT * at);
        let config = e.config;
        Some(config)
    }
}

// What `mark` does. This and the next two take the bytes themselves: in a proof each byte of a slice that is a parameter is known to be below 256, and
// between the writes of the other two the bytes are no table.
fn mark_in(bytes: &mut [u8], key: Key, time: u32, value: i64)
    requires { is_table capacity bytes.old ≡ true }
    ensures { read_t capacity bytes.new ≡ table_read true (mark_l key time value (table_in bytes.old)) }
{
    let n = bytes[0] as usize;
    let at = TableRef { bytes }.find_slot(key);
    if n <= at {
        return;
    }
    let place = 1 + SLOT * at;
    let e = read_slot(bytes, place);
    let marked = e.mark(time, value);
    write_slot(bytes, place, marked);
}

// What `configure` does.
fn configure_in(bytes: &mut [u8], key: Key, config: ReportingConfig) -> bool
    requires { is_table capacity bytes.old ≡ true }
    ensures { kept_as result bytes.new ≡ configure_in key config (table_in bytes.old) }
{
    let n = bytes[0] as usize;
    let at = TableRef { bytes }.find_slot(key);
    if LIMIT <= at {
        return false;
    }
    write_slot(bytes, 1 + SLOT * at, Entry::fresh(key, config));
    if n <= at {
        bytes[0] = (n + 1) as u8;
    }
    true
}

// Zeros in the slot at `at`.
fn blank_slot(bytes: &mut [u8], at: usize)
    requires { at + slot_bytes ≤ length bytes.old }
    ensures { bytes.new ≡ sets bytes.old at (zeros slot_bytes) }
{
    clear(&mut bytes[at..at + SLOT]);
}

// What `clear` does.
fn clear_in(bytes: &mut [u8], key: Key)
    requires { is_table capacity bytes.old ≡ true }
    ensures { read_t capacity bytes.new ≡ table_read true (clear_l key (table_in bytes.old)) }
{
    let n = bytes[0] as usize;
    let at = TableRef { bytes }.find_slot(key);
    if n <= at {
        return;
    }
    let last = n - 1;
    let e = read_slot(bytes, 1 + SLOT * last);
    write_slot(bytes, 1 + SLOT * at, e);
    blank_slot(bytes, 1 + SLOT * last);
    bytes[0] = last as u8;
}

impl TableMut<'_> {
    // The same bytes, to be read.
    pub fn read(&self) -> TableRef<'_>
        ensures { result.bytes.now ≡ self.now.bytes.now }
    {
        TableRef { bytes: self.bytes }
    }

    // Keeps the time and the value of a report.
    pub fn mark(&mut self, key: Key, time: u32, value: i64)
        ensures same_reference { self.new.bytes.ghost_name ≡ self.old.bytes.ghost_name }
        ensures marked { read_t capacity self.new.bytes.now ≡ table_read true (mark_l key time value (table_in self.old.bytes.now)) }
    {
        mark_in(self.bytes, key, time, value);
    }

    // Sets the key's configuration, forgets its last report, and says whether there was room. A new key takes the slot behind the last one.
    pub fn configure(&mut self, key: Key, config: ReportingConfig) -> bool
        ensures same_reference { self.new.bytes.ghost_name ≡ self.old.bytes.ghost_name }
        ensures configured { kept_as result self.new.bytes.now ≡ configure_in key config (table_in self.old.bytes.now) }
    {
        configure_in(self.bytes, key, config)
    }

    // Takes the key's entry out: the last slot moves into its place, and zeros into the last.
    pub fn clear(&mut self, key: Key)
        ensures same_reference { self.new.bytes.ghost_name ≡ self.old.bytes.ghost_name }
        ensures cleared { read_t capacity self.new.bytes.now ≡ table_read true (clear_l key (table_in self.old.bytes.now)) }
    {
        clear_in(self.bytes, key);
    }
}
