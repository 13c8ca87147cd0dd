// The reply buffer: cleared, then filled from its start, so that it is always the reply so far and zeros to the end.
ghost use Rattle.std.specs.Prelude.{◌≡◌, [], ◌∷◌, ◌++◌, length};
ghost use Rattle.types.specs.Number.{zeros, bytes_of};
ghost use Rattle.frame.specs.Inside.Buffer.{putting, put};

// Every byte of the buffer is 0 afterwards. Tried `fill`: it stores the last byte apart, some 40 bytes of code more wherever this is
// inlined; kept as a loop, which is one memset.
pub fn clear(buffer: &mut [u8])
    ensures { buffer.new ≡ zeros (length buffer.old) }
{
    for b in buffer {
        *b = 0;
    }
}

// Puts bytes at `at` and says where the next one goes, if they fit there; otherwise nothing changes. Tried `copy_from_slice`: of a number of bytes that is
// not known here the compiler makes a call of memmove, a name that an archive for C would want from outside; kept as a loop, which wants none.
pub fn put_run(buffer: &mut [u8], at: usize, bytes: &[u8]) -> Option<usize>
    ensures { putting result buffer.new ≡ put buffer.old at bytes.now }
{
    let n = bytes.len();
    if buffer.len() < at {
        return None;
    }
    if buffer.len() - at < n {
        return None;
    }
    for (i, b) in buffer[at..at + n].iter_mut().enumerate() {
        *b = bytes[i];
    }
    Some(at + n)
}

// Puts two runs, one behind the other, if there is room for both: nothing half-written ever stands.
pub fn put_both(buffer: &mut [u8], at: usize, front: &[u8], back: &[u8]) -> Option<usize>
    ensures { putting result buffer.new ≡ put buffer.old at (front.now ++ back.now) }
{
    if buffer.len() < at {
        return None;
    }
    let room = buffer.len() - at;
    if room < front.len() {
        return None;
    }
    if room - front.len() < back.len() {
        return None;
    }
    let Some(next) = put_run(buffer, at, front) else {
        return None;
    };
    put_run(buffer, next, back)
}

// Puts one byte.
pub fn put_byte(buffer: &mut [u8], at: usize, b: u8) -> Option<usize>
    ensures { putting result buffer.new ≡ put buffer.old at (b ∷ []) }
{
    put_run(buffer, at, &[b])
}

// Puts a number of two bytes, the low one first.
pub fn put_u16(buffer: &mut [u8], at: usize, x: u16) -> Option<usize>
    ensures { putting result buffer.new ≡ put buffer.old at (bytes_of 2 x) }
{
    put_run(buffer, at, &x.to_le_bytes())
}
