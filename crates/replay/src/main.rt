// Replays a recorded list of another program's answers, read from standard input, and says how many are ours too.
// A kind of line has a place in names.rt, cases.rt, stores.rt, commands.rt, methods.rt or requests.rt (what ours says),
// verdict.rt (its letter) and here (its row).
#![tactic(auto)]

ghost use Rattle.std.specs.Prelude.{◌≡◌, ◌≤◌, length, IfOk};

use std::io::{self, Print, Read};

mod bytes;
mod cases;
mod commands;
mod hex;
mod line;
mod methods;
mod names;
mod requests;
mod stores;
mod tally;
mod verdict;

use tally::{Tally, row_of};

// What is printed: a kind's name, its letter, and what its lines do.
const ROWS: [(&str, u8, &str); 13] = [
    ("types", b't', "agree"),
    ("names of types", b'i', "agree"),
    ("headers", b'h', "agree"),
    ("extents", b'e', "agree"),
    ("listed differences", b'd', "as document 01 says"),
    ("stores", b's', "as document 01 says"),
    ("numbers", b'v', "as document 01 says"),
    ("writes", b'w', "as document 01 says"),
    ("commands", b'c', "agree"),
    (
        "listed differences of commands",
        b'x',
        "as documents 01 and 02 say",
    ),
    ("histories of a table", b'm', "agree"),
    ("requests with a table", b'q', "agree"),
    (
        "listed differences of requests",
        b'y',
        "as document 02 says",
    ),
];

// A row with the count of one kind.
fn row(out: &impl Print, name: &str, t: Tally, letter: u8, rest: &str) -> io::Result<()> {
    let k = row_of(letter);
    let agree = t.agree[k];
    let of = t.of[k];
    println!(out; "{name}: {agree} of {of} {rest}")
}

fn report(out: &impl Print, t: Tally, whole: bool) -> io::Result<()> {
    for (name, letter, rest) in ROWS {
        row(out, name, t, letter, rest)?;
    }
    if t.first != 0 {
        println!(out; "first that does not agree: line {}", t.first)?;
    }
    if whole {
        println!(out; "list: whole, {} lines", t.lines)
    } else {
        println!(out; "list: cut")
    }
}

// Room for the list. The `ensures` keeps the proof of main away from two million zeros.
fn space() -> [u8; 2097152]
    ensures { 2097152 ≡ length result }
{
    [0; 2097152]
}

// Reads until the buffer is full or the input ends, and says how many bytes came.
// (`read_to_end` wants a Vec, and `read_exact` does not say how many bytes came before the end.)
fn read_full(input: &mut impl Read, buffer: &mut [u8]) -> io::Result<usize>
    ensures { IfOk result (λ n. n ≤ length buffer.new) }
{
    let mut done = 0;
    while done < buffer.len() {
        let n = input.read(&mut buffer[done..])?;
        if n == 0 {
            break;
        }
        done += n;
    }
    Ok(done)
}

fn main(rt: HostRuntime) -> io::Result<()> {
    let mut list = space();
    let n = read_full(&mut rt.stdin(), &mut list)?;
    let t = tally::replay(&list[..n]);
    // Where the list fills the buffer, some of it may be left unread.
    report(&rt.stdout(), t, t.whole && n < 2097152)
}
