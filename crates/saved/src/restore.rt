// A table's bytes, made from a saved form. What they were before does not matter: memory after a power cut is no table.
ghost use Rattle.std.specs.Prelude.{◌≡◌, true, ◌&&◌, [], ◌≤◌, eqb, length, drop};
ghost use Rattle.reporting.specs.Table.{capacity};
ghost use Rattle.reporting.specs.Carried.{table_bytes, rows_in};
ghost use Rattle.reporting.specs.Claims.RoundTrip.{AllClean};
ghost use Rattle.saved.specs.Saved.{form_of, form_in, marked, row_of, saved_size, offset_at, saved_in, follow_on, marks_ok, is_laid};
ghost use Rattle.saved.specs.Lent.{restored, restore_lent};

use super::form::{ROW, body_at, entry_in, mark_in, offset_in};
use super::savable::is_savable;
use frame::answer::Refusal;
use frame::reply::clear;
use reporting::carried::{SLOT, TABLE_BYTES, write_slot};
use reporting::held::TableRef;
use reporting::table::LIMIT;

// Whether each of n bodies is where its offset says, the first behind the contents and each next one behind the body before it, and has a mark of 0 or 1.
fn bodies_fit(saved: &[u8], with_marks: bool, n: usize) -> bool
    requires { (n ≤ capacity) × (saved_size (form_of with_marks) n ≤ length saved.now) }
    ensures { result ≡ follow_on (form_of with_marks) n 0 (rows_in (row_of marked) n (drop 1 saved.now)) && marks_ok (rows_in (form_of with_marks).bodies n (drop (offset_at (form_of with_marks) n 0) saved.now)) }
{
    for i in 0..n {
        let offset = offset_in(saved, 1 + ROW * i);
        let at = body_at(with_marks, n, i);
        if offset as usize != at {
            return false;
        }
        let mark = mark_in(saved, with_marks, at);
        if 1 < mark {
            return false;
        }
    }
    true
}

// Whether the form has marks, by its length: the count is that of a table.
fn has_marks(saved: &[u8], n: usize) -> bool
    requires { n ≤ capacity }
    ensures { result ≡ eqb (length saved.now) (saved_size marked n) }
{
    let size = body_at(true, n, n);
    saved.len() == size
}

// Whether the bytes are laid out as a form of up to so many entries as a table has room for, whatever the entries are.
fn is_laid(saved: &[u8]) -> bool
    ensures { result ≡ is_laid (form_in saved.now) capacity saved.now }
{
    if saved.len() == 0 {
        return false;
    }
    let n = saved[0] as usize;
    if LIMIT < n {
        return false;
    }
    let with_marks = has_marks(saved, n);
    let size = body_at(with_marks, n, n);
    if saved.len() != size {
        return false;
    }
    bodies_fit(saved, with_marks, n)
}

// Puts the form's entries into an empty table. Not public: the bytes must be an empty table's, and those of a form laid out.
fn fill(table: &mut [u8], saved: &[u8])
    requires { (table.old ≡ table_bytes capacity []) × (is_laid (form_in saved.now) capacity saved.now ≡ true) }
    ensures table_after { table.new ≡ table_bytes capacity (saved_in (form_in saved.now) saved.now) }
    ensures all_clean { AllClean (saved_in (form_in saved.now) saved.now) }
{
    let n = saved[0] as usize;
    let with_marks = has_marks(saved, n);
    for i in 0..n {
        let at = body_at(with_marks, n, i);
        let e = entry_in(saved, with_marks, 1 + ROW * i, at);
        write_slot(table, 1 + SLOT * i, e);
        table[0] = (i + 1) as u8;
    }
}

// The table of a saved form; of other bytes the empty one.
pub fn restore(table: &mut [u8], saved: &[u8]) -> Result<(), Refusal>
    ensures { restored result table.new ≡ restore_lent saved.now table.old }
{
    if table.len() != TABLE_BYTES {
        return Err(Refusal::NotATable);
    }
    clear(table);
    if !is_laid(saved) {
        return Err(Refusal::NotASavedForm);
    }
    fill(table, saved);
    if is_savable(TableRef { bytes: table }) {
        return Ok(());
    }
    clear(table);
    Err(Refusal::NotASavedForm)
}
