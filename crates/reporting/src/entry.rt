// One attribute's entry: what was configured, and its last report.
ghost use Rattle.std.specs.Prelude.{◌≡◌};
ghost use Rattle.reporting.specs.Entries.{same, matches, fresh, mark_e};
ghost use Rattle.reporting.specs.Due.{moved_by, ripe, due_e};
ghost use Rattle.reporting.specs.Wish.{wish};

use super::distance::distance_by;
use types::ids::{AttributeId, ClusterId};

// As a maximum interval it ends the reporting of an attribute (2.5.7.1.6).
pub const MAX_INTERVAL_DISABLED: u16 = 0xffff;

// As a minimum interval, with a maximum of 0, it asks for the default configuration (2.5.7.1.6). This device has none, and keeps no entry.
pub const MIN_INTERVAL_DEFAULT: u16 = 0xffff;

// What an entry is found by. A cluster and an attribute cannot be exchanged.
#[derive(Clone, Copy, PartialEq, Eq)]
pub struct Key {
    pub cluster: ClusterId,
    pub attribute: AttributeId,
}

// The reporting configuration of one attribute (2.5.7.1): seconds, seconds, and the least change to report. `unsigned` is its mark: whether its
// numbers compare by their 64 bits, without a sign.
#[derive(Clone, Copy)]
pub struct ReportingConfig {
    pub min_interval: u16,
    pub max_interval: u16,
    pub reportable_change: u64,
    pub unsigned: bool,
}

// What a configuration asks for by its intervals: that the key's entry is cleared, that nothing is done, or that the entry is set.
#[derive(Clone, Copy)]
pub enum Wish {
    ToClear,
    ToRefuse,
    ToSet,
}

// `marked` says whether there was a report since it was configured; else time and value are 0.
#[derive(Clone, Copy)]
pub struct Entry {
    pub key: Key,
    pub config: ReportingConfig,
    pub marked: bool,
    pub last_time: u32,
    pub last_value: i64,
}

impl Key {
    pub fn is(self, other: Key) -> bool
        ensures { result ≡ same self other }
    {
        self == other
    }
}

impl ReportingConfig {
    // A maximum of ffff, or 0 with a minimum of ffff, clears; a maximum that is not 0 and below the minimum is wrong.
    pub fn wish(self) -> Wish
        ensures { result ≡ wish self }
    {
        let max = self.max_interval;
        let min = self.min_interval;
        if max == MAX_INTERVAL_DISABLED {
            return Wish::ToClear;
        }
        if max == 0 {
            if min == MIN_INTERVAL_DEFAULT {
                return Wish::ToClear;
            }
            return Wish::ToSet;
        }
        if max < min {
            return Wish::ToRefuse;
        }
        Wish::ToSet
    }

    // How far a value has moved, for an attribute that is configured so.
    pub fn moved_by(self, from: i64, to: i64) -> u64
        ensures { result ≡ moved_by self from to }
    {
        distance_by(self.unsigned, to, from)
    }

    // Whether a report is due that many seconds after the last one, the value having moved so far.
    pub fn ripe(self, since: u32, moved: u64) -> bool
        ensures { result ≡ ripe self since moved }
    {
        if since < self.min_interval as u32 {
            return false;
        }
        let max = self.max_interval as u32;
        (max != 0 && max <= since) || (moved != 0 && self.reportable_change <= moved)
    }
}

impl Entry {
    // An entry as a configuration makes it: not yet reported.
    pub fn fresh(key: Key, config: ReportingConfig) -> Self
        ensures { result ≡ fresh key config }
    {
        Entry {
            key,
            config,
            marked: false,
            last_time: 0,
            last_value: 0,
        }
    }

    pub fn is_of(self, key: Key) -> bool
        ensures { result ≡ matches key self }
    {
        self.key.is(key)
    }

    // The entry after a report.
    pub fn mark(mut self, now: u32, value: i64) -> Self
        ensures { result ≡ mark_e now value self }
    {
        self.marked = true;
        self.last_time = now;
        self.last_value = value;
        self
    }

    // Whether a report of `value` is due at `now`. No time has passed where the clock went back.
    pub fn due(self, now: u32, value: i64) -> bool
        ensures { result ≡ due_e self now value }
    {
        let config = self.config;
        if config.max_interval == MAX_INTERVAL_DISABLED {
            return false;
        }
        if !self.marked {
            return true;
        }
        let since = now.saturating_sub(self.last_time);
        let moved = config.moved_by(self.last_value, value);
        config.ripe(since, moved)
    }
}
