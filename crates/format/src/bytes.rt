// Little-endian numbers in a byte slice.
ghost use Rattle.std.specs.Prelude.{◌≡◌, ◌+◌, ◌<◌, ◌≤◌, ◌++◌, length, take, drop};
ghost use Rattle.format.specs.Bytes.{Read8, Read16, Read32};
ghost use Rattle.format.specs.Encode.{two};

// The byte at `at`.
pub fn u8_at(s: &[u8], at: usize) -> usize
    requires { at < length s.now }
    ensures { Read8 s.now at result }
{
    usize::from(s[at])
}

// The two bytes at `at`, the low one first.
#[tactic(auto, unfolding(crate::specs::Bytes::u16))]
pub fn u16_at(s: &[u8], at: usize) -> usize
    requires { at + 2 ≤ length s.now }
    ensures { Read16 s.now at result }
{
    usize::from(u16::from_le_bytes([s[at], s[at + 1]]))
}

// The four bytes at `at`, the low ones first.
#[tactic(auto, unfolding(crate::specs::Bytes::u32, crate::specs::Bytes::u16))]
pub fn u32_at(s: &[u8], at: usize) -> usize
    requires { at + 4 ≤ length s.now }
    ensures { Read32 s.now at result }
{
    u32::from_le_bytes([s[at], s[at + 1], s[at + 2], s[at + 3]]) as usize
}

// Writes a number's two bytes, the low one first.
pub fn put_u16(out: &mut [u8], at: usize, n: u16)
    requires { at + 2 ≤ length out.old }
    ensures { out.new ≡ take at out.old ++ (two n ++ drop (at + 2) out.old) }
{
    out[at..at + 2].copy_from_slice(&n.to_le_bytes());
}
