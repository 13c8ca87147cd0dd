// Numbers of up to 8 bytes, the low byte first. Each function answers for every slice, place and width.
ghost use Rattle.std.specs.Prelude.{◌≡◌, ◌+◌, ◌-◌, ◌*◌, ◌<◌, ◌^◌, min, nat_abs, get_or};
ghost use Rattle.std.proofs.lemmas.List.Edits.{sets};
ghost use Rattle.types.specs.Number.{all_zero, bytes_of, unsigned_at, signed_at, signed_of};

// How many of `width` bytes, and of the 8 that a u64 holds, a slice of `len` bytes has from `at` on.
fn available(len: usize, at: usize, width: usize) -> usize
    ensures { result ≡ min (min width 8) (len - at) }
{
    width.min(8).min(len.saturating_sub(at))
}

// The byte at `at`; past the end, 0.
pub fn byte_at(s: &[u8], at: usize) -> u8
    ensures { result ≡ get_or s.now at 0 }
{
    s.get(at).copied().unwrap_or(0)
}

// Whether every byte is 0: whether no bit is set in any. One way out of the loop and no test in it, so that it runs on many bytes at
// once.
pub fn all_zero(s: &[u8]) -> bool
    ensures { result ≡ all_zero s.now }
{
    let mut bits: u8 = 0;
    for b in s {
        bits |= b;
    }
    bits == 0
}

// The two-byte number at `at`; bytes past the end count as 0.
pub fn u16_at(s: &[u8], at: usize) -> u16
    ensures { result ≡ unsigned_at s.now at 2 }
{
    if s.len() <= at {
        return 0;
    }
    u16::from_le_bytes([s[at], byte_at(s, at + 1)])
}

// The number of `width` bytes from `at` on, of which at most 8 are read; bytes past the end count as 0.
pub fn unsigned_at(s: &[u8], at: usize, width: usize) -> u64
    ensures { result ≡ unsigned_at s.now at (min width 8) }
{
    let mut n = 0u64;
    for i in (0..available(s.len(), at, width)).rev() {
        n = n * 256 + s[at + i] as u64;
    }
    n
}

// The same 64 bits, read with their sign.
pub fn bits_i64(x: u64) -> i64
    ensures { result ≡ signed_of 8 x }
{
    x.cast_signed()
}

// A number of `width` bytes, and of at most 8, as two's complement: shifted up until its sign is the top bit, and down again with that.
// No entry point: its number must have that width.
pub(crate) fn sign_extended(n: u64, width: usize) -> i64
    requires { n < 2 ^ (8 * min width 8) }
    ensures { result ≡ signed_of (min width 8) n }
{
    if width == 0 {
        return 0;
    }
    let unused = 64 - 8 * width.min(8);
    (n << unused).cast_signed() >> unused
}

// The number of `width` bytes from `at` on, with its sign.
pub fn signed_at(s: &[u8], at: usize, width: usize) -> i64
    ensures { result ≡ signed_at s.now at (min width 8) }
{
    let n = unsigned_at(s, at, width);
    sign_extended(n, width)
}

// A number without its sign: the least i64 has 2^63.
pub fn magnitude(x: i64) -> u64
    ensures { result ≡ nat_abs x }
{
    x.unsigned_abs()
}

// Writes the low `width` bytes of n from `at` on, as far as the slice goes.
pub fn put_le(out: &mut [u8], at: usize, width: usize, n: u64)
    ensures { out.new ≡ sets out.old at (bytes_of width n) }
{
    let end = at.saturating_add(width).min(out.len());
    let mut v = n;
    for p in at..end {
        out[p] = (v % 256) as u8;
        v /= 256;
    }
}

// The eight bytes of n; the first w of them are n cut to w bytes.
pub fn le_bytes(n: u64) -> [u8; 8]
    ensures { result ≡ bytes_of 8 n }
{
    n.to_le_bytes()
}
