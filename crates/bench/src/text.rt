// An answer as text: its number, and of a reply a space and the bytes in hex.
ghost use Rattle.std.specs.Prelude.{◌≡◌, ◌++◌, ◌+◌, ◌*◌, ◌≤◌, ◌%◌, length, take};
ghost use Rattle.io.specs.Digits.{hex_digit_ascii};
ghost use Rattle.frame.specs.Answer.{no_state, seen};
ghost use Rattle.bench.specs.Bench.{decimal, hex, said};

use frame::answer::Answer;
use store::layout::part;

// The low digit of a number in base 16.
fn digit(n: u8) -> u8
    ensures { result ≡ hex_digit_ascii (n % 16) }
{
    let d = n % 16;
    if d < 10 { b'0' + d } else { b'a' - 10 + d }
}

// Puts a number below 100 at the start of out, and says where it ends. There must be room for two digits.
#[tactic(auto, using(crate::proofs::Laid::decimal_one, crate::proofs::Laid::decimal_two))]
pub(crate) fn put_number(out: &mut [u8], n: u8) -> usize
    requires { 2 ≤ length out.old }
    ensures { take result out.new ≡ decimal n }
{
    if n < 10 {
        out[0] = digit(n);
        return 1;
    }
    out[0] = digit(n / 10 % 10);
    out[1] = digit(n % 10);
    2
}

// Puts the digits of bytes at `at`, and says where they end. They must fit.
fn put_hex(out: &mut [u8], at: usize, bytes: &[u8]) -> usize
    requires { at + 2 * length bytes.now ≤ length out.old }
    ensures { take result out.new ≡ take at out.old ++ hex bytes.now }
{
    let mut p = at;
    for &b in bytes {
        out[p] = digit(b / 16);
        out[p + 1] = digit(b);
        p += 2;
    }
    p
}

// Puts what is said of an answer, with the reply buffer as the call left it, at the start of out, and says where it ends. There must
// be room for the whole buffer's digits.
pub(crate) fn put_answer(out: &mut [u8], answer: Answer, reply: &[u8]) -> usize
    requires { 2 + 2 * length reply.now ≤ length out.old }
    ensures { take result out.new ≡ said (seen answer reply.now no_state) }
{
    match answer {
        Err(why) => put_number(out, u8::from(why)),
        Ok(n) => {
            out[0] = b'0';
            out[1] = b' ';
            put_hex(out, 2, part(reply, 0, n))
        }
    }
}
