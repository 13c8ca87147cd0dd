// Document 01's bench program: reads a two-byte store length, the store and a request from standard input, and writes what the
// server says to it: number, space, reply hex; of a refusal the number alone. Nothing else, and no newline.
#![tactic(auto)]

ghost use Rattle.std.specs.Prelude.{◌≡◌, ◌≤◌, length, IfOk};

use std::io::{self, Print, Read};

mod answer;
mod text;

use answer::bench;
use store::layout::part;

// The longest input: two bytes, 65,535 of store, 65,535 of request.
const LONGEST: usize = 131072;

// Room for one byte more, which shows that there is more to read. The `ensures` keeps the proof of main away from so many zeros.
fn space() -> [u8; 131073]
    ensures { 131073 ≡ length result }
{
    [0; 131073]
}

// Reads until the buffer is full or the input ends, and says how many bytes came.
// (`read_to_end` wants a Vec, and `read_exact` does not say how many bytes came before the end.)
fn read_full(input: &mut impl Read, buffer: &mut [u8]) -> io::Result<usize>
    ensures { IfOk result (λ n. n ≤ length buffer.new) }
{
    let mut done = 0;
    while done < buffer.len() {
        let n = input.read(&mut buffer[done..])?;
        if n == 0 {
            break;
        }
        done += n;
    }
    Ok(done)
}

fn main(rt: HostRuntime) -> io::Result<()> {
    let mut input = space();
    let n = read_full(&mut rt.stdin(), &mut input)?;
    if LONGEST < n {
        return rt
            .stderr()
            .write_all(b"bench: the input has more than 131072 bytes\n");
    }
    let mut out = [0u8; 130];
    let len = bench(&input[..n], &mut out);
    rt.stdout().write_all(part(&out, 0, len))
}
