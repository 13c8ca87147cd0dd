// One line, judged: whether it agrees, or that it is the last; `None` where it cannot be read.
ghost use Rattle.std.specs.Prelude.{◌≡◌, ◌≤◌, length};
ghost use Rattle.replay.specs.Line.{split, space};
ghost use Rattle.replay.specs.Ours.{agreement};
ghost use Rattle.replay.specs.Verdict.{ours, agreed, recorded as recorded_by, case_of, listed as listed_by, difference_of, last_of, by_letter, judged};

use super::bytes::blank;
use super::cases::{of_extent, of_header, of_type};
use super::commands::of_command;
use super::hex::decode;
use super::line::split_once;
use super::methods::of_history;
use super::names::of_names;
use super::requests::of_request;
use super::stores::{of_number, of_store, of_write};
use types::number::unsigned_at;

#[derive(Clone, Copy)]
pub(crate) enum Verdict {
    // A case of the kind that a letter names, and whether it agrees.
    Case(u8, bool),
    // The last line, with the number of lines that it says stand before it.
    Last(u64),
}

// What ours says to an input of the kind that a letter names, held to what was recorded.
#[tactic(auto, unfolding(crate::specs::Verdict::ours))]
fn held_to_ours(letter: u8, input: &[u8], held: &[u8]) -> Option<bool>
    requires { length input.now ≤ 4608 }
    ensures { result ≡ agreement (ours letter input.now) held.now }
{
    match letter {
        b't' => of_type(input, held),
        b'h' => of_header(input, held),
        b'e' | b'd' => of_extent(input, held),
        b's' => of_store(input, held),
        b'v' => of_number(input, held),
        b'w' => of_write(input, held),
        b'c' | b'x' => of_command(input, held),
        b'i' => of_names(input, held),
        b'm' => of_history(input, held),
        b'q' | b'y' => of_request(input, held),
        _ => None,
    }
}

// Whether the second field is what ours says to the first.
fn recorded(letter: u8, first: &[u8], second: &[u8]) -> Option<bool>
    ensures { agreed letter result ≡ recorded_by letter first.now second.now }
{
    let mut input = blank();
    let n = decode(first, &mut input)?;
    let mut held = blank();
    let k = decode(second, &mut held)?;
    held_to_ours(letter, &input[..n], &held[..k])
}

// A line with two fields.
#[tactic(auto, using(crate::proofs::Fields::case_one, crate::proofs::Fields::case_more, crate::proofs::Fields::case_two))]
fn case(letter: u8, fields: &[u8]) -> Option<bool>
    ensures { agreed letter result ≡ case_of letter (split space fields.now) }
{
    let (first, second) = split_once(fields, b' ')?;
    if second.contains(&b' ') {
        return None;
    }
    recorded(letter, first, second)
}

// Whether the second field is what ours says to the first, and the third, the other program's answer, is another: where
// it is the same there is no difference to list.
fn listed(letter: u8, first: &[u8], second: &[u8], third: &[u8]) -> Option<bool>
    ensures { agreed letter result ≡ listed_by letter first.now second.now third.now }
{
    let mut held = blank();
    let n = decode(second, &mut held)?;
    let mut other = blank();
    let k = decode(third, &mut other)?;
    let agrees = recorded(letter, first, second)?;
    Some(agrees && held[..n] != other[..k])
}

// A line with three fields.
#[tactic(auto, using(crate::proofs::Fields::difference_one, crate::proofs::Fields::difference_two, crate::proofs::Fields::difference_more, crate::proofs::Fields::difference_three))]
fn difference(letter: u8, fields: &[u8]) -> Option<bool>
    ensures { agreed letter result ≡ difference_of letter (split space fields.now) }
{
    let (first, more) = split_once(fields, b' ')?;
    let (second, third) = split_once(more, b' ')?;
    if third.contains(&b' ') {
        return None;
    }
    listed(letter, first, second, third)
}

// The line with the number of lines before it, in four bytes.
fn last(fields: &[u8]) -> Option<Verdict>
    ensures { result ≡ last_of (split space fields.now) }
{
    if fields.contains(&b' ') {
        return None;
    }
    let mut count = [0u8; 4];
    let n = decode(fields, &mut count)?;
    if n != 4 {
        return None;
    }
    Some(Verdict::Last(unsigned_at(&count, 0, 4)))
}

// The letter says what the fields mean.
#[tactic(auto, unfolding(crate::specs::Verdict::by_letter))]
fn by_letter(letter: u8, fields: &[u8]) -> Option<Verdict>
    ensures { result ≡ by_letter letter (split space fields.now) }
{
    let agrees = match letter {
        b'n' => return last(fields),
        b'd' | b'x' | b'y' => difference(letter, fields)?,
        _ => case(letter, fields)?,
    };
    Some(Verdict::Case(letter, agrees))
}

// What is to be said of a line. Its letter is the whole first word.
#[tactic(auto, using(crate::proofs::Fields::judged_other, crate::proofs::Fields::judged_short, crate::proofs::Fields::judged_letter))]
pub(crate) fn judge(line: &[u8]) -> Option<Verdict>
    ensures { result ≡ judged line.now }
{
    let (word, fields) = split_once(line, b' ')?;
    let &[letter] = word else {
        return None;
    };
    by_letter(letter, fields)
}
