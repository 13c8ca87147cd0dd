// The reporting table: 128 entries and a count, by value (sixteen before document 02's request 7). The slots past the count are no part of it.
ghost use Rattle.std.specs.Prelude.{◌≡◌, [], ◌≤◌};
ghost use Rattle.reporting.specs.Entries.{find_l};
ghost use Rattle.reporting.specs.Table.{capacity, live, table_of, holding, handed_back, setting_told, report_told, length_told, configure_t, clear_t, mark_t, configuration_t, ask_t, length_t};

use super::entry::{Entry, Key, ReportingConfig};
use frame::answer::Refusal;
use types::ids::{AttributeId, ClusterId};

// How many entries a table has room for.
pub const LIMIT: usize = 128;

#[derive(Clone, Copy)]
pub struct ReportingTable {
    pub entries: [Entry; LIMIT],
    pub count: usize,
}

// What an operation that may change the table hands back: the table, and whether there was room, or that it is no table. One that is none comes back
// as it was, all of it. It stands first, as wherever a table is handed on:
// nothing lies before it then, and its copies are aligned.
#[derive(Clone, Copy)]
pub struct Changed {
    pub table: ReportingTable,
    pub answer: Result<bool, Refusal>,
}

impl ReportingTable {
    // A table without entries: every one of its slots is blank.
    pub fn new() -> Self
        ensures { table_of result ≡ holding [] }
    {
        let blank = Entry::fresh(
            Key {
                cluster: ClusterId(0),
                attribute: AttributeId(0),
            },
            ReportingConfig {
                min_interval: 0,
                max_interval: 0,
                reportable_change: 0,
                unsigned: false,
            },
        );
        ReportingTable {
            entries: [blank; LIMIT],
            count: 0,
        }
    }

    // The place of the key's first entry, or the count where there is none. Not public: the count must be within the room.
    fn find(self, key: Key) -> usize
        requires { self.count ≤ capacity }
        ensures { result ≡ find_l key (live self) }
    {
        let n = self.count;
        let mut i: usize = 0;
        // A loop that gives the place by `break`: document 01 asks for this form here, by name.
        loop {
            if n <= i {
                break n;
            }
            let e = self.entries[i];
            if e.is_of(key) {
                break i;
            }
            i += 1;
        }
    }

    // Sets the key's configuration, and forgets its last report. A new key takes the place behind the last entry.
    pub fn configure(mut self, key: Key, config: ReportingConfig) -> Changed
        ensures { handed_back result ≡ configure_t capacity key config (table_of self) }
    {
        let n = self.count;
        if LIMIT < n {
            return Changed {
                answer: Err(Refusal::NotATable),
                table: self,
            };
        }
        let at = self.find(key);
        if LIMIT <= at {
            return Changed {
                answer: Ok(false),
                table: self,
            };
        }
        let e = Entry::fresh(key, config);
        self.entries[at] = e;
        if n <= at {
            self.count = n + 1;
        }
        Changed {
            answer: Ok(true),
            table: self,
        }
    }

    // Takes the key's entry out: the last entry moves into its place.
    pub fn clear(mut self, key: Key) -> Changed
        ensures { handed_back result ≡ clear_t key (table_of self) }
    {
        let n = self.count;
        if LIMIT < n {
            return Changed {
                answer: Err(Refusal::NotATable),
                table: self,
            };
        }
        let at = self.find(key);
        if n <= at {
            return Changed {
                answer: Ok(true),
                table: self,
            };
        }
        let last = n - 1;
        let e = self.entries[last];
        self.entries[at] = e;
        self.count = last;
        Changed {
            answer: Ok(true),
            table: self,
        }
    }

    // Keeps the time and the value of a report (`reported` in the Rust).
    pub fn mark(mut self, key: Key, now: u32, value: i64) -> Changed
        ensures { handed_back result ≡ mark_t key now value (table_of self) }
    {
        let n = self.count;
        if LIMIT < n {
            return Changed {
                answer: Err(Refusal::NotATable),
                table: self,
            };
        }
        let at = self.find(key);
        if n <= at {
            return Changed {
                answer: Ok(true),
                table: self,
            };
        }
        let e = self.entries[at];
        self.entries[at] = e.mark(now, value);
        Changed {
            answer: Ok(true),
            table: self,
        }
    }

    // The key's configuration, if it has an entry.
    pub fn configuration(self, key: Key) -> Result<Option<ReportingConfig>, Refusal>
        ensures { setting_told result ≡ configuration_t key (table_of self) }
    {
        let n = self.len()?;
        let at = self.find(key);
        if n <= at {
            return Ok(None);
        }
        let e = self.entries[at];
        let config = e.config;
        Ok(Some(config))
    }

    // Whether a report of `value` is due at `now` (`should_report` in the Rust).
    pub fn ask(self, key: Key, now: u32, value: i64) -> Result<bool, Refusal>
        ensures { report_told result ≡ ask_t key now value (table_of self) }
    {
        let count = self.len()?;
        let at = self.find(key);
        if count <= at {
            return Ok(false);
        }
        let e = self.entries[at];
        Ok(e.due(now, value))
    }

    // The number of entries.
    pub fn len(self) -> Result<usize, Refusal>
        ensures { length_told result ≡ length_t (table_of self) }
    {
        let n = self.count;
        if LIMIT < n {
            return Err(Refusal::NotATable);
        }
        Ok(n)
    }
}
