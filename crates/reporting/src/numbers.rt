// Numbers of two, four and eight bytes at a place, the low byte first. All bytes must be there, so that nothing is tested, and
// the compiler makes one load or store of a number. No entry points: those that are public are so for crate `saved` alone.
// The bytes are named one by one where a number is read: of a copy into an array the compiler made a test for overlap in every loop.
ghost use Rattle.std.specs.Prelude.{◌≡◌, ◌+◌, ◌≤◌, length};
ghost use Rattle.std.proofs.lemmas.List.Edits.{sets};
ghost use Rattle.types.specs.Number.{bytes_of, unsigned_at};

// The two-byte number at `at`.
pub fn u16_in(bytes: &[u8], at: usize) -> u16
    requires { at + 2 ≤ length bytes.now }
    ensures { result ≡ unsigned_at bytes.now at 2 }
{
    let b = &bytes[at..at + 2];
    u16::from_le_bytes([b[0], b[1]])
}

// The four-byte number at `at`.
pub(crate) fn u32_in(bytes: &[u8], at: usize) -> u32
    requires { at + 4 ≤ length bytes.now }
    ensures { result ≡ unsigned_at bytes.now at 4 }
{
    let b = &bytes[at..at + 4];
    u32::from_le_bytes([b[0], b[1], b[2], b[3]])
}

// The eight-byte number at `at`.
pub fn u64_in(bytes: &[u8], at: usize) -> u64
    requires { at + 8 ≤ length bytes.now }
    ensures { result ≡ unsigned_at bytes.now at 8 }
{
    let b = &bytes[at..at + 8];
    u64::from_le_bytes([b[0], b[1], b[2], b[3], b[4], b[5], b[6], b[7]])
}

// Writes the two bytes of n at `at`.
pub fn put_u16_in(bytes: &mut [u8], at: usize, n: u16)
    requires { at + 2 ≤ length bytes.old }
    ensures { bytes.new ≡ sets bytes.old at (bytes_of 2 n) }
{
    bytes[at..at + 2].copy_from_slice(&n.to_le_bytes());
}

// Writes the four bytes of n at `at`.
pub(crate) fn put_u32_in(bytes: &mut [u8], at: usize, n: u32)
    requires { at + 4 ≤ length bytes.old }
    ensures { bytes.new ≡ sets bytes.old at (bytes_of 4 n) }
{
    bytes[at..at + 4].copy_from_slice(&n.to_le_bytes());
}

// Writes the eight bytes of n at `at`.
pub fn put_u64_in(bytes: &mut [u8], at: usize, n: u64)
    requires { at + 8 ≤ length bytes.old }
    ensures { bytes.new ≡ sets bytes.old at (bytes_of 8 n) }
{
    bytes[at..at + 8].copy_from_slice(&n.to_le_bytes());
}
