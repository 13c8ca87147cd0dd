// Bytes compared, and what stands behind a place. Each function answers for every place.
ghost use Rattle.std.specs.Prelude.{◌≡◌, length, drop};
ghost use Rattle.replay.specs.Inside.{matched};

// The most bytes that a field may have: a longer one cannot be read.
const LONGEST: usize = 4608;

// Room for a field. The `ensures` keeps its caller's proof away from so many zeros.
pub(crate) fn blank() -> [u8; LONGEST]
    ensures { 4608 ≡ length result }
{
    [0; LONGEST]
}

// What stands from `from` on; nothing past the end.
pub(crate) fn rest(s: &[u8], from: usize) -> &[u8]
    ensures { result.now ≡ drop from s.now }
{
    s.get(from..).unwrap_or(&[])
}

// Where the bytes end, if they stand at `at`.
#[tactic(auto, using(crate::proofs::Matches::matched_is))]
pub(crate) fn match_run(s: &[u8], at: usize, bytes: &[u8]) -> Option<usize>
    ensures { result ≡ matched s.now at bytes.now }
{
    if rest(s, at).starts_with(bytes) {
        Some(at + bytes.len())
    } else {
        None
    }
}
