// How many lines of each kind agree, over a whole list.
ghost use Rattle.std.specs.Prelude.{◌≡◌, ◌<◌};
ghost use Rattle.replay.specs.Tally.{row_of, start, counted, closed as closed_by, tally_of};
ghost use Rattle.replay.specs.Line.{split, newline};
ghost use Rattle.replay.specs.Inside.{AtMost};

use super::line::split_once;
use super::verdict::{Verdict, judge};

// Counts, by the place of a kind's letter in the alphabet.
const LETTERS: usize = 32;

#[derive(Clone, Copy)]
pub(crate) struct Tally {
    // How many lines of a kind agree, of how many. Two arrays, not one of pairs: `counted` and the clauses of `with` speak of each by itself.
    pub(crate) agree: [usize; LETTERS],
    pub(crate) of: [usize; LETTERS],
    // The cases so far.
    pub(crate) lines: usize,
    // The first line that does not agree, counted from 1; 0 where all do.
    pub(crate) first: usize,
    // Whether the list came to its last line, and that says as many lines as there were.
    pub(crate) whole: bool,
}

// The place of a letter's count.
pub(crate) fn row_of(letter: u8) -> usize
    ensures { result ≡ row_of letter }
{
    usize::from(letter % 32)
}

impl Tally {
    fn new() -> Tally
        ensures { result ≡ start }
    {
        Tally {
            agree: [0; LETTERS],
            of: [0; LETTERS],
            lines: 0,
            first: 0,
            whole: false,
        }
    }

    // One line more.
    #[tactic(auto, unfolding(crate::specs::Tally::counted))]
    fn with(mut self, letter: u8, agrees: bool) -> Tally
        requires agree_bound { AtMost self.lines self.agree }
        requires of_bound { AtMost self.lines self.of }
        requires lines_bound { self.lines < 18446744073709551615 }
        ensures { result ≡ counted self letter agrees }
    {
        let row = row_of(letter);
        self.of[row] += 1;
        if agrees {
            self.agree[row] += 1;
        }
        self.lines += 1;
        if !agrees && self.first == 0 {
            self.first = self.lines;
        }
        self
    }

    // The last line says how many stood before it, and this stands after it.
    #[tactic(auto, using(crate::proofs::Counts::nothing_is), unfolding(crate::specs::Tally::closed))]
    fn closed(mut self, count: u64, after: &[u8]) -> Tally
        ensures { result ≡ closed_by self count (split newline after.now) }
    {
        self.whole = self.lines != 0 && count == self.lines as u64 && after.is_empty();
        self
    }
}

// The tally of a list, up to its end or the first line that cannot be read. It is whole only where it has a case, and
// the line with the right count is the last, and ends.
#[tactic(auto, using(crate::proofs::Counts::counting_first, crate::proofs::Counts::counting_cut, crate::proofs::Counts::counting_bad, crate::proofs::Counts::counting_last, crate::proofs::Counts::counting_more))]
pub(crate) fn replay(list: &[u8]) -> Tally
    ensures { result ≡ tally_of list.now }
{
    let mut t = Tally::new();
    let mut left = list;
    while let Some((line, after)) = split_once(left, b'\n') {
        match judge(line) {
            Some(Verdict::Case(letter, agrees)) => t = t.with(letter, agrees),
            Some(Verdict::Last(count)) => return t.closed(count, after),
            None => return t,
        }
        left = after;
    }
    t
}
