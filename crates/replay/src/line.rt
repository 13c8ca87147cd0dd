// A text as words with one mark between them.
ghost use Rattle.std.specs.Prelude.{◌≡◌};
ghost use Rattle.replay.specs.Inside.{parts, cut};

// What stands before the first `mark`, and what stands behind it; `None` where there is none.
pub(crate) fn split_once(s: &[u8], mark: u8) -> Option<(&[u8], &[u8])>
    ensures { parts result ≡ cut mark s.now }
{
    let n = s.iter().position(|b| *b == mark)?;
    Some((&s[..n], &s[n + 1..]))
}
