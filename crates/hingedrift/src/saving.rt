// The saved form of a reporting table, for flash. A refusal of hd_save leaves zeros in the buffer and through `saved_used`.
ghost use Rattle.std.specs.Prelude.{◌≡◌, length};
ghost use Rattle.frame.specs.Answer.{no_state};
ghost use Rattle.hingedrift.specs.Tables.{left, no_result};
ghost use Rattle.hingedrift.specs.Serving.{handed};
ghost use Rattle.hingedrift.specs.Saving.{save_left, restore_left};

use frame::answer::{answer_number, reply_len};
use saved::restore::restore;
use saved::save::save;

// Writes the saved form of a table.
#[unsafe(no_mangle)]
pub extern "C" fn hd_save(table: &[u8], saved: &mut [u8], saved_used: &mut usize) -> u8
    ensures { handed result saved_used.new saved.new no_state ≡ save_left table.now (length saved.old) }
{
    let answer = save(table, saved);
    *saved_used = reply_len(answer);
    answer_number(answer)
}

// Makes a table of a saved form; of other bytes an empty one.
#[unsafe(no_mangle)]
pub extern "C" fn hd_restore(table: &mut [u8], saved: &[u8]) -> u8
    ensures { left result table.new no_result ≡ restore_left table.old saved.now }
{
    match restore(table, saved) {
        Ok(()) => 0,
        Err(why) => u8::from(why),
    }
}
