// Bytes of a text by value, and four and eight of them as one number, the first the lowest: the compiler makes one load of each.
ghost use Rattle.std.specs.Prelude.{◌≡◌, ◌+◌, ◌≤◌, ◌<◌, length, take, drop};
ghost use Rattle.base.specs.Bytes.{num};

// The N bytes from `at` on.
pub fn chunk<const N: usize>(s: &[u8], at: usize) -> [u8; N]
    requires { at + N ≤ length s.now }
    ensures { result ≡ take N (drop at s.now) }
{
    *s[at..at + N].as_array().unwrap()
}

pub fn get4(s: &[u8], at: usize) -> u64
    requires { at + 4 ≤ length s.now }
    ensures { (result ≡ num (take 4 (drop at s.now))) × (result < 4294967296) }
{
    u64::from(u32::from_le_bytes(chunk(s, at)))
}

pub fn get8(s: &[u8], at: usize) -> u64
    requires { at + 8 ≤ length s.now }
    ensures { result ≡ num (take 8 (drop at s.now)) }
{
    u64::from_le_bytes(chunk(s, at))
}
