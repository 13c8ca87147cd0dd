// Bytes as pairs of lowercase hexadecimal digits.
ghost use Rattle.std.specs.Prelude.{◌≡◌, length};
ghost use Rattle.replay.specs.Line.{digit_of, hex};
ghost use Rattle.replay.specs.Inside.{Within, told};

// The value of a digit, or 16 where the byte is none. (`char::to_digit` would also read A to F.)
#[tactic(auto, using(crate::proofs::Digits::digit_low, crate::proofs::Digits::digit_high, crate::proofs::Digits::digit_none))]
fn digit(b: u8) -> u8
    ensures { result ≡ digit_of b }
{
    match b {
        b'0'..=b'9' => b - b'0',
        b'a'..=b'f' => b - b'a' + 10,
        _ => 16,
    }
}

// Puts the bytes that the digits stand for at the start of out. A text with half a byte, one that holds something
// else than digits, and one that is too long for out cannot be read.
pub(crate) fn decode(digits: &[u8], out: &mut [u8]) -> Option<usize>
    ensures out_after { told result out.new ≡ hex (length out.old) digits.now }
    ensures within { Within result out.new }
{
    let (pairs, half) = digits.as_chunks::<2>();
    if !half.is_empty() || out.len() < pairs.len() {
        return None;
    }
    for (i, &[high, low]) in pairs.iter().enumerate() {
        let high = digit(high);
        let low = digit(low);
        if 15 < high || 15 < low {
            return None;
        }
        out[i] = 16 * high + low;
    }
    Some(pairs.len())
}
