// A row of the contents, and a body, at their places. None of these functions is public: all bytes must be there.
ghost use Rattle.std.specs.Prelude.{◌≡◌, [], ◌∷◌, ◌+◌, ◌≤◌, length, get_or, drop};
ghost use Rattle.std.proofs.lemmas.List.Edits.{sets};
ghost use Rattle.reporting.specs.Table.{capacity};
ghost use Rattle.reporting.specs.Carried.{laid, numbers_in, if_marked};
ghost use Rattle.saved.specs.Saved.{form_of, marked, row_of, body_bytes, offset_at, entry_from};

use reporting::entry::{Entry, Key, ReportingConfig};
use reporting::numbers::{put_u16_in, put_u64_in, u16_in, u64_in};
use types::ids::{AttributeId, ClusterId};

// The bytes of a row: cluster, attribute, offset.
pub(crate) const ROW: usize = 6;

// The bytes of a body: minimum, maximum, change, mark; and of one without a mark.
const BODY: usize = 13;

const BODY_WITHOUT: usize = 12;

// Where body i of n starts, in a form with marks or in one without; where the form ends, for n.
pub(crate) fn body_at(with_marks: bool, n: usize, i: usize) -> usize
    requires { (n ≤ capacity) × (i ≤ capacity) }
    ensures { result ≡ offset_at (form_of with_marks) n i }
{
    if with_marks {
        return 1 + ROW * n + BODY * i;
    }
    1 + ROW * n + BODY_WITHOUT * i
}

// Writes a row at `at`.
pub(crate) fn write_row(saved: &mut [u8], at: usize, key: Key, offset: u16)
    requires { at + 6 ≤ length saved.old }
    ensures { saved.new ≡ sets saved.old at (laid (row_of marked) (key.cluster.0 ∷ key.attribute.0 ∷ offset ∷ [])) }
{
    let cluster = key.cluster;
    let attribute = key.attribute;
    put_u16_in(saved, at, cluster.0);
    put_u16_in(saved, at + 2, attribute.0);
    put_u16_in(saved, at + 4, offset);
}

// Writes a body at `at`.
pub(crate) fn write_body(saved: &mut [u8], at: usize, config: ReportingConfig)
    requires { at + body_bytes marked ≤ length saved.old }
    ensures { saved.new ≡ sets saved.old at (laid marked.bodies (config.min_interval ∷ config.max_interval ∷ config.reportable_change ∷ if_marked config.unsigned 1 ∷ [])) }
{
    put_u16_in(saved, at, config.min_interval);
    put_u16_in(saved, at + 2, config.max_interval);
    put_u64_in(saved, at + 4, config.reportable_change);
    saved[at + 12] = config.unsigned as u8;
}

// The offset that the row at `at` gives.
pub(crate) fn offset_in(saved: &[u8], at: usize) -> u16
    requires { at + 6 ≤ length saved.now }
    ensures { result ≡ get_or (numbers_in (row_of marked) (drop at saved.now)) (length marked.keys) 0 }
{
    u16_in(saved, at + 4)
}

// The mark of the body at `at`: 0 where the form has none.
pub(crate) fn mark_in(saved: &[u8], with_marks: bool, at: usize) -> u8
    requires { at + body_bytes (form_of with_marks) ≤ length saved.now }
    ensures { result ≡ get_or (numbers_in (form_of with_marks).bodies (drop at saved.now)) 3 0 }
{
    if with_marks {
        return saved[at + 12];
    }
    0
}

// The entry of a row and a body: not yet reported.
pub(crate) fn entry_in(saved: &[u8], with_marks: bool, row: usize, body: usize) -> Entry
    requires { (row + 6 ≤ length saved.now) × (body + body_bytes (form_of with_marks) ≤ length saved.now) }
    ensures { result ≡ entry_from (numbers_in (row_of marked) (drop row saved.now)) (numbers_in (form_of with_marks).bodies (drop body saved.now)) }
{
    let cluster = u16_in(saved, row);
    let attribute = u16_in(saved, row + 2);
    let min_interval = u16_in(saved, body);
    let max_interval = u16_in(saved, body + 2);
    let reportable_change = u64_in(saved, body + 4);
    let mark = mark_in(saved, with_marks, body);
    let key = Key {
        cluster: ClusterId(cluster),
        attribute: AttributeId(attribute),
    };
    let config = ReportingConfig {
        min_interval,
        max_interval,
        reportable_change,
        unsigned: mark == 1,
    };
    Entry::fresh(key, config)
}
