// What a table must be to be written, and a form to be read: no key twice, and every entry one that a configuration record could have set.
ghost use Rattle.std.specs.Prelude.{◌≡◌};
ghost use Rattle.reporting.specs.Carried.{table_in};
ghost use Rattle.reporting.specs.Wish.{wish};
ghost use Rattle.saved.specs.Saved.{is_set, is_savable};

use reporting::carried::{SLOT, read_slot};
use reporting::entry::{ReportingConfig, Wish};
use reporting::held::TableRef;

// Whether a record with this configuration would set an entry.
fn is_set(config: ReportingConfig) -> bool
    ensures { result ≡ is_set (wish config) }
{
    matches!(config.wish(), Wish::ToSet)
}

// Whether the table is one that is written. A key that stands twice is found before its second place.
pub(crate) fn is_savable(table: TableRef<'_>) -> bool
    ensures { result ≡ is_savable (table_in table.entry.bytes.now) }
{
    let n = table.bytes[0] as usize;
    for i in 0..n {
        let e = read_slot(table.bytes, 1 + SLOT * i);
        if !is_set(e.config) {
            return false;
        }
        let first = table.find_slot(e.key);
        if first != i {
            return false;
        }
    }
    true
}
