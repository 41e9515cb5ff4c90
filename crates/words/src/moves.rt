// Several bytes at a time: the compiler makes one load and one store, or one comparison, of each.
ghost use Rattle.std.specs.Prelude.{◌≡◌, ◌+◌, ◌≤◌, length};
ghost use Rattle.base.specs.Buffer.{over};
ghost use Rattle.base.specs.Decides.{Decides};
ghost use Rattle.base.specs.Front.{begins as begins_with};
ghost use Rattle.words.specs.Moves.{seg, with};

use base::loads::chunk;

// The N bytes of w from `at` on are moved to the same place of out; by value, since of two slices that may overlap the compiler makes a loop as well.
pub fn move_part<const N: usize>(w: &[u8], at: usize, out: &mut [u8])
    requires { (at + N ≤ length w.now) × (at + N ≤ length out.old) }
    ensures { out.new ≡ with at (seg at N w.now) N out.old }
{
    out[at..at + N].copy_from_slice(&chunk::<N>(w, at));
}

// Whether the N bytes of w from `at` on are those at the same place of s.
pub fn same_part<const N: usize>(w: &[u8], at: usize, s: &[u8]) -> bool
    requires { (at + N ≤ length w.now) × (at + N ≤ length s.now) }
    ensures { Decides result (seg at N s.now ≡ seg at N w.now) }
{
    chunk::<N>(s, at) == chunk::<N>(w, at)
}

// Writes a text of N to 2 N bytes over the front of out: its first and its last N.
pub fn move_ends<const N: usize>(w: &[u8], out: &mut [u8])
    requires { (N ≤ length w.now) × (length w.now ≤ N + N) × (length w.now ≤ length out.old) }
    ensures { out.new ≡ over out.old w.now }
{
    let last = w.len() - N;
    move_part::<N>(w, 0, out);
    move_part::<N>(w, last, out);
}

// Whether s, which is no shorter, begins with a text of N to 2 N bytes.
pub fn same_ends<const N: usize>(w: &[u8], s: &[u8]) -> bool
    requires { (N ≤ length w.now) × (length w.now ≤ N + N) × (length w.now ≤ length s.now) }
    ensures { result ≡ begins_with w.now s.now }
{
    let last = w.len() - N;
    same_part::<N>(w, 0, s) && same_part::<N>(w, last, s)
}
