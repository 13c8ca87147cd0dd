// A table's bytes, written as a saved form.
ghost use Rattle.std.specs.Prelude.{◌≡◌, map, ◌+◌, ◌*◌, ◌≤◌, length};
ghost use Rattle.std.proofs.lemmas.List.Edits.{sets};
ghost use Rattle.frame.specs.Answer.{seen, no_state};
ghost use Rattle.reporting.specs.Carried.{table_in, count_in, rows_laid};
ghost use Rattle.saved.specs.Saved.{marked, key_of, body_of, row_of, saved_size, offset_at, contents_from};
ghost use Rattle.saved.specs.Lent.{save_lent};

use super::form::{ROW, body_at, write_body, write_row};
use super::savable::is_savable;
use frame::answer::{Answer, Refusal, refuse};
use frame::reply::clear;
use reporting::carried::{SLOT, is_table, read_slot};
use reporting::held::TableRef;

// The contents list behind the count, and the bodies behind it. Not public: the form must fit.
fn write_entries(saved: &mut [u8], table: TableRef<'_>)
    requires { saved_size marked (count_in table.bytes.now) ≤ length saved.old }
    ensures { saved.new ≡ sets (sets saved.old 1 (rows_laid (row_of marked) (contents_from marked (count_in table.entry.bytes.now) 0 (map key_of (table_in table.entry.bytes.now))))) (offset_at marked (count_in table.entry.bytes.now) 0) (rows_laid marked.bodies (map body_of (table_in table.entry.bytes.now))) }
{
    let n = table.bytes[0] as usize;
    for i in 0..n {
        let e = read_slot(table.bytes, 1 + SLOT * i);
        let at = body_at(true, n, i);
        write_row(saved, 1 + ROW * i, e.key, at as u16);
        write_body(saved, at, e.config);
    }
}

// Writes the saved form of the table, and says how long it is.
pub fn save(table: &[u8], saved: &mut [u8]) -> Answer
    ensures { seen result saved.new no_state ≡ save_lent table.now (length saved.old) }
{
    if !is_table(table) {
        return refuse(saved, Refusal::NotATable);
    }
    let held = TableRef { bytes: table };
    if !is_savable(held) {
        return refuse(saved, Refusal::NotASavedForm);
    }
    let n = table[0] as usize;
    let size = body_at(true, n, n);
    if saved.len() < size {
        return refuse(saved, Refusal::ReplyTooLong);
    }
    clear(saved);
    saved[0] = n as u8;
    write_entries(saved, held);
    Ok(size)
}
