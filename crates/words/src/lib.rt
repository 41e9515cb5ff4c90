#![tactic(auto)]
// Texts as parts of a pool, which a caller lends: their lengths and spaces, their bytes, and whether a phrase begins with one. Of a text of 8 to 16 bytes
// two moves are made, which may overlap.
mod moves; // moves.rt: several bytes at a time
pub mod extents; // extents.rt: length and spaces, without the pool

ghost use Rattle.std.specs.Prelude.{◌≡◌, ◌≤◌, ◌<◌, length};
ghost use Rattle.base.specs.Buffer.{over};
ghost use Rattle.base.specs.Front.{begins as begins_with, passed};
ghost use Rattle.words.specs.Part.{part as part_of};

use crate::moves::{move_ends, move_part, same_ends, same_part};

// More bytes than any text has: a place is half of where its text starts, times this, and the text's length.
pub const LONGER: u32 = 40;

// The text at a place of a pool; one that the pool's end cuts off is what is left of it.
pub fn part(pool: &[u8], place: u32) -> &[u8]
    ensures { (result.now ≡ part_of pool.now place) × (length result.now < 40) }
{
    let a = 2 * (place / LONGER) as usize;
    let e = a + (place % LONGER) as usize;
    if pool.len() < e {
        return &pool[a.min(pool.len())..];
    }
    &pool[a..e]
}

// The length of the text at a place.
pub fn len(pool: &[u8], place: u32) -> usize
    ensures { (result ≡ length (part_of pool.now place)) × (result < 40) }
{
    part(pool, place).len()
}

// Writes a text of fewer than 8 bytes.
fn put_short(w: &[u8], out: &mut [u8])
    requires { (length w.now < 8) × (length w.now ≤ length out.old) }
    ensures { out.new ≡ over out.old w.now }
{
    let n = w.len();
    if n < 2 {
        if n == 1 {
            out[0] = w[0];
        }
    } else if n < 4 {
        move_ends::<2>(w, out);
    } else {
        move_ends::<4>(w, out);
    }
}

// Writes a text of 8 to 40 bytes: eight at a time, and its last eight. A loop would be made ready for far longer texts.
fn put_long(w: &[u8], out: &mut [u8])
    requires { (8 ≤ length w.now) × (length w.now ≤ 40) × (length w.now ≤ length out.old) }
    ensures { out.new ≡ over out.old w.now }
{
    let n = w.len();
    move_part::<8>(w, 0, out);
    if 16 < n {
        move_part::<8>(w, 8, out);
        if 24 < n {
            move_part::<8>(w, 16, out);
            if 32 < n {
                move_part::<8>(w, 24, out);
            }
        }
    }
    move_part::<8>(w, n - 8, out);
}

// Writes a text of at most 40 bytes over the front of out.
pub fn copy(w: &[u8], out: &mut [u8]) -> usize
    requires { (length w.now ≤ 40) × (length w.now ≤ length out.old) }
    ensures { (result ≡ length w.now) × (out.new ≡ over out.old w.now) }
{
    let n = w.len();
    if n < 8 {
        put_short(w, out);
    } else {
        put_long(w, out);
    }
    n
}

// Writes the text at a place over the front of out.
pub fn put(pool: &[u8], place: u32, out: &mut [u8]) -> usize
    requires { length (part_of pool.now place) ≤ length out.old }
    ensures { (result ≡ length (part_of pool.now place)) × (out.new ≡ over out.old (part_of pool.now place)) }
{
    copy(part(pool, place), out)
}

// Whether s, which is no shorter, begins with a text of fewer than 8 bytes.
fn same_short(w: &[u8], s: &[u8]) -> bool
    requires { (length w.now < 8) × (length w.now ≤ length s.now) }
    ensures { result ≡ begins_with w.now s.now }
{
    let n = w.len();
    if n < 2 {
        return n == 0 || s[0] == w[0];
    }
    if n < 4 {
        return same_ends::<2>(w, s);
    }
    same_ends::<4>(w, s)
}

// Whether s, which is no shorter, begins with a text of 8 bytes or more: eight at a time, and the last eight.
fn same_long(w: &[u8], s: &[u8]) -> bool
    requires { (8 ≤ length w.now) × (length w.now ≤ length s.now) }
    ensures { result ≡ begins_with w.now s.now }
{
    for turn in 0..(w.len() - 1) / 8 {
        if !same_part::<8>(w, turn * 8, s) {
            return false;
        }
    }
    same_part::<8>(w, w.len() - 8, s)
}

// Whether s begins with a text.
pub fn begins(w: &[u8], s: &[u8]) -> bool
    ensures { result ≡ begins_with w.now s.now }
{
    let n = w.len();
    if s.len() < n {
        return false;
    }
    if n < 8 {
        return same_short(w, s);
    }
    same_long(w, s)
}

// The length of the text at a place, where s begins with it.
pub fn pass(pool: &[u8], place: u32, s: &[u8]) -> Option<usize>
    ensures { result ≡ passed (part_of pool.now place) s.now }
{
    let w = part(pool, place);
    begins(w, s).then_some(w.len())
}
