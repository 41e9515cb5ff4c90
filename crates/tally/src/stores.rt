// Numbers as bytes.
ghost use Rattle.std.specs.Prelude.{◌≡◌, ◌≤◌, length};
ghost use Rattle.base.specs.Buffer.{over};
ghost use Rattle.base.specs.Bytes.{low_bytes};

// Writes the k lowest bytes of n, the lowest first.
pub fn put(n: u64, k: usize, out: &mut [u8])
    requires { k ≤ length out.old }
    ensures { out.new ≡ over out.old (low_bytes k n) }
{
    let mut rest = n;
    for byte in &mut out[..k] {
        *byte = (rest % 256) as u8;
        rest /= 256;
    }
}
