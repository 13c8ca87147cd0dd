// How far apart two numbers are, without a difference that could overflow.
ghost use Rattle.std.specs.Prelude.{◌≡◌};
ghost use Rattle.reporting.specs.Due.{dist, bits_of, dist_by};

// How far apart two numbers are: up to 2^64-1, for the least and the largest.
pub fn distance(a: i64, b: i64) -> u64
    ensures { result ≡ dist a b }
{
    a.abs_diff(b)
}

// The same 64 bits, read without their sign.
pub(crate) fn bits_u64(x: i64) -> u64
    ensures { result ≡ bits_of x }
{
    x.cast_unsigned()
}

// How far apart two numbers are, compared with their sign or, by their 64 bits, without one: up to 2^64-1 either way.
pub fn distance_by(unsigned: bool, a: i64, b: i64) -> u64
    ensures { result ≡ dist_by unsigned a b }
{
    if unsigned {
        bits_u64(a).abs_diff(bits_u64(b))
    } else {
        distance(a, b)
    }
}
